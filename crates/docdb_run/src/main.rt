//! Runs scripts of sessions against a cluster.
#![tactic(auto)]

ghost use Rattle.std.specs.Prelude.{◌≡◌, [], All, IfOk};

mod answer;
mod counts;
mod entries;
mod exchange;
mod form;
mod form_line;
mod form_reader;
mod form_refusal;
mod form_text;
mod line;
mod output;
mod report;
mod script_source;
mod sim;
mod simulate;
mod tablet;
#[cfg(test)]
mod tests;
mod world;

use docdb_base::{Memory, Seq};
use docdb_outside::{MemLog, StdSink, StdSource};
use std::alloc::Global;
use std::process::ExitCode;
use std::{env, io};
use txn_types::Trace;

/// How many logs a cluster has at most: one for each of 64 tablets, and one for each of 16 status tablets.
const MOST_LOGS: usize = 80;

/// The status where memory ran out.
const NO_MEMORY: u8 = 3;

fn main(rt: HostRuntime) -> ExitCode {
    ExitCode::from(served(&rt).unwrap_or(NO_MEMORY))
}

/// Serves this process's arguments, input and output. Arguments that can't be had are no words.
fn served(rt: &HostRuntime) -> Result<u8, Memory> {
    let alloc = rt.alloc();
    let args = match env::args(rt) {
        Ok(args) => args,
        Err(_) => Vec::new(alloc).into_iter(),
    };
    let mut owned = Vec::new(alloc);
    for arg in args.skip(1) {
        owned.push(arg)?;
    }
    let mut words = Vec::new(alloc);
    for word in &owned {
        words.push(word.as_str())?;
    }
    let mut logs = empty_logs(alloc)?;
    let mut trace = Trace {
        entries: Seq::new(alloc),
    };
    Ok(sim::sim_main(
        alloc,
        words.as_slice(),
        &mut StdSource::of(rt.reader()),
        &mut StdSink::of(io::writer(rt)),
        &mut logs,
        &mut trace,
    ))
}

/// Logs that hold nothing and never fail.
fn empty_logs(alloc: Global) -> Result<Vec<MemLog>, Memory>
    ensures { IfOk result (λ logs. All (λ log. (log.held ≡ []) × (log.faults ≡ 0)) logs.items) }
{
    let mut logs = Vec::new(alloc);
    for _ in 0..MOST_LOGS {
        logs.push(MemLog::of(Vec::new(alloc), Vec::new(alloc)))?;
    }
    Ok(logs)
}
