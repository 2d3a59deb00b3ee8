//! What is printed of a case.
ghost use Rattle.cluster_config.specs.Head.{IsSpelled};
ghost use Rattle.script_text.specs.Saying.{IsSaid};

use crate::case::Case;
use script_text::{ScriptRefusal, write_script};
use std::alloc::{AllocError, Global};
use std::io;
use std::io::Write;
use txn_data::{Commands, Config};

/// A script that is shown whole has at most this many bytes.
const MOST_SHOWN: usize = 4096;

/// Prints why a case is no script, or how much it says, and how it is written if that is short.
pub fn answer<W: Write>(alloc: Global, out: &mut W, case: &Case) -> io::Result<()> {
    match case.read() {
        Ok((config, plan)) => {
            put_counts(alloc, out, &plan)?;
            put_script(alloc, out, &config, &plan)
        }
        Err(ScriptRefusal::ScriptRefused { line, why }) => {
            put(
                out,
                format!(in alloc; "refused script {line} {why}")?.as_str(),
            )
        }
        Err(ScriptRefusal::Memory) => Err(AllocError.into()),
    }
}

/// Prints a line.
pub fn put<W: Write>(out: &mut W, line: &str) -> io::Result<()> {
    out.write_all(line.as_bytes())?;
    out.write_all(b"\n")
}

fn put_counts<W: Write>(alloc: Global, out: &mut W, plan: &Commands) -> io::Result<()> {
    let sessions = plan.sessions.items().len();
    let commands = plan.order.items().len();
    let moves = plan.go.items().len();
    put(
        out,
        format!(in alloc; "read sessions={sessions} commands={commands} moves={moves}")?.as_str(),
    )
}

fn put_script<W: Write>(
    alloc: Global,
    out: &mut W,
    config: &Config,
    plan: &Commands,
) -> io::Result<()>
    requires { IsSpelled config.now × IsSaid config.now plan.now }
{
    let mut text = Vec::new(alloc);
    write_script(config, plan, &mut text)?;
    if text.len() > MOST_SHOWN {
        return Ok(());
    }
    out.write_all(text.as_slice())
}
