//! The top call that serves scripts by a chosen order of moves.
ghost use Rattle.std.specs.Prelude.{◌≡◌, [], map, All, ℕ};
ghost use Rattle.docdb_run.specs.Outcome.{Ends, EndsWriting, are_sim};

use crate::form::read_form;
use crate::form_refusal::FormRefusal;
use crate::output::write_all;
use crate::report::{refused_script, report};
use crate::script_source::{ReadRefusal, read_source};
use crate::simulate::simulate;
use docdb_outside::{LogStore, Sink, Source};
use std::alloc::Global;
use txn_types::{Told, Trace};

/// Runs the script that the source holds, and writes its report to the sink. The words are the program's arguments
/// without its name: the one word `sim`. The trace then holds the recorded history. The stores are not used yet.
///
/// The status is 0 where all was told and written, 1 where the script is refused, 2 where the words are, 3 where memory
/// ran out, 4 where the source failed, and 5 where the sink did.
pub fn sim_main<S: Source, K: Sink, L: LogStore>(
    alloc: Global,
    words: &[&str],
    src: &mut S,
    out: &mut K,
    logs: &mut Vec<L>,
    trace: &mut Trace,
) -> u8
    requires empty { trace.old.entries ≡ [] }
    requires unused { All (λ log. (L.held log ≡ []) × (L.faults log ≡ 0)) logs.old.items }
    ensures logs { logs.new.items ≡ logs.old.items }
    ensures ends { Ends result (record {
      words = map (λ word. word.now) words.now;
      left = S.left src.old;
      left_after = S.left src.new;
      source_faults = S.faults src.old;
      source_faults_after = S.faults src.new;
      taken = K.taken out.old;
      taken_after = K.taken out.new;
      sink_faults = K.faults out.old;
      sink_faults_after = K.faults out.new;
      sink_stalls = K.stalls out.old;
      sink_stalls_after = K.stalls out.new;
      entries = trace.new.entries;
    }) }
{
    let _ = logs;
    if !are_sim(words) {
        return ended(out, b"refused words\n".as_slice(), 2);
    }
    let script = match read_source(alloc, src) {
        Ok(script) => script,
        Err(ReadRefusal::Failed) => return ended(out, b"refused read\n".as_slice(), 4),
        Err(ReadRefusal::Memory) => return 3,
    };
    let commands = match read_form(alloc, script.as_slice()) {
        Ok(commands) => commands,
        Err(FormRefusal::Later { line }) => {
            let Ok(text) = refused_script(alloc, line) else {
                return 3;
            };
            return ended(out, text.as_bytes(), 1);
        }
        Err(FormRefusal::Memory) => return 3,
    };
    let Ok(told) = simulate(alloc, commands.as_slice(), trace) else {
        return 3;
    };
    let passed = Told::Passed {
        applied: 0,
        cleaned: 0,
        left: 0,
    };
    let Ok(text) = report(alloc, commands.as_slice(), told.as_slice(), &passed) else {
        return 3;
    };
    ended(out, text.as_slice(), 0)
}

/// Writes a text with which the call ends. The answer is its status, or 5 where the sink failed.
fn ended<K: Sink>(out: &mut K, text: &[u8], status: u8) -> u8
    ensures { EndsWriting (K.taken out.old) (K.taken out.new) (K.faults out.old) (K.faults out.new) (K.stalls out.old) (K.stalls out.new) text.now status result }
{
    match write_all(out, text) {
        Ok(()) => status,
        Err(_) => 5,
    }
}

/// Whether the words are the one word `sim`.
fn are_sim(words: &[&str]) -> bool
    ensures { result ≡ are_sim (map (λ word. word.now) words.now) }
{
    match words {
        [word] => *word == "sim",
        _ => false,
    }
}
