//! Scripts are read.
ghost use Rattle.std.specs.Prelude.{◌≡◌, ◌+◌, ◌^◌, ◌<◌, ◌⊎◌, IfOk, IfErr, Ok, Err, length};
ghost use Rattle.txn_types.specs.Script.{IsRunnable};
ghost use Rattle.cluster_config.specs.Head.{IsSpelled, head_of};
ghost use Rattle.script_text.specs.Lines.{lines_of};
ghost use Rattle.script_text.specs.Outcomes.{Tells};
ghost use Rattle.script_text.specs.Saying.{IsSaid};
ghost use Rattle.script_text.specs.Script.{refusal_of_head, script_of, with_head};

use crate::body::read_body;
use crate::parts::parts_of;
use crate::script_refusal::ScriptRefusal;
use crate::why::Why;
use cluster_config::{HeadRefusal, read_head};
use std::alloc::Global;
use txn_data::{Commands, Config};

/// The most bytes of a script.
const MOST_BYTES: usize = 16_777_216;

/// The refusal of a script as a whole, or for its head.
fn refused(why: Why) -> ScriptRefusal
    ensures { result ≡ ScriptRefusal.ScriptRefused 0 why }
{
    ScriptRefusal::ScriptRefused { line: 0, why }
}

fn refusal_of_head(refusal: HeadRefusal) -> ScriptRefusal
    ensures { result ≡ refusal_of_head refusal }
{
    match refusal {
        HeadRefusal::HeadText => refused(Why::HeadText),
        HeadRefusal::HeadKey => refused(Why::HeadKey),
        HeadRefusal::HeadValue => refused(Why::HeadValue),
        HeadRefusal::Memory => ScriptRefusal::Memory,
    }
}

/// The cluster of a head, and the plan of the body behind a head of so many lines.
fn read_parts(
    alloc: Global,
    head: &str,
    before: u32,
    body: &[u8],
) -> Result<(Config, Commands), ScriptRefusal>
    requires { before + 2 + length body.now < 2 ^ 32 }
    ensures value { Tells (λ x. x) result
        (with_head (record { head = head.now; before = before; body = lines_of body.now }) (head_of head.now)) }
    ensures spelled { IfOk result (λ x. IsSpelled x.0) }
    ensures said { IfOk result (λ x. IsSaid x.0 x.1) }
    ensures runs { IfOk result (λ x. IsRunnable x.0 x.1) }
{
    match read_head(alloc, head) {
        Ok(config) => {
            let plan = read_body(alloc, &config, before + 2, body)?;
            Ok((config, plan))
        }
        Err(refusal) => Err(refusal_of_head(refusal)),
    }
}

fn read(alloc: Global, bytes: &[u8]) -> Result<(Config, Commands), ScriptRefusal>
    ensures value { Tells (λ x. x) result (script_of bytes.now) }
    ensures spelled { IfOk result (λ x. IsSpelled x.0) }
    ensures said { IfOk result (λ x. IsSaid x.0 x.1) }
    ensures runs { IfOk result (λ x. IsRunnable x.0 x.1) }
{
    if MOST_BYTES < bytes.len() {
        return Err(refused(Why::Long));
    }
    let Ok(text) = str::from_utf8(bytes) else {
        return Err(refused(Why::Utf8));
    };
    match parts_of(bytes) {
        Some((end, before, body)) => read_parts(alloc, &text[..end], before, body),
        None => Err(refused(Why::NoHead)),
    }
}

/// The cluster and the plan that a script says; or the first reason against it, and its line.
pub fn read_script(alloc: Global, bytes: &[u8]) -> Result<(Config, Commands), ScriptRefusal>
    ensures ok { IfOk result (λ x. script_of bytes.now ≡ Ok x) }
    ensures refused { IfErr result (λ e. (e ≡ ScriptRefusal.Memory) ⊎ (script_of bytes.now ≡ Err e)) }
    // A head can spell the cluster that was read.
    ensures spelled { IfOk result (λ x. IsSpelled x.0) }
    // What was read can be said: its places and values have spellings, and its movers are there.
    ensures said { IfOk result (λ x. IsSaid x.0 x.1) }
    // What was read can be run.
    ensures runs { IfOk result (λ x. IsRunnable x.0 x.1) }
{
    read(alloc, bytes)
}
