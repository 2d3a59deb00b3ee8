//! The report of a history.
ghost use Rattle.std.specs.Prelude.{◌≡◌, ◌+◌, ◌++◌, flat_map, length, IfOk, OnOk, string_bytes};
ghost use Rattle.std.specs.Str.{IsUtf8};
ghost use Rattle.txn_types.specs.History.{history_of};
ghost use Rattle.txn_types.specs.Run.{Run};
ghost use Rattle.txn_types.specs.Script.{Follows, from_up};
ghost use Rattle.report_text.specs.Text.{AllSpelled, last_session, numbered_lines, text_of, text_with};
ghost use Rattle.report_text.specs.Walk.{kept_lines, kept_pass, kept_passes};

use crate::line::put_line;
use crate::seen::Seen;
use crate::session_lines::SessionLines;
use crate::told_line::ToldLine;
use crate::total::put_total;
use docdb_base::Memory;
use std::alloc::Global;
use trace_merge::clocks_agree;
use txn_types::{Commands, Config, Trace};

/// The report of a history, as plain lines or as lines of JSON, or its total alone. The words of commands stand in the
/// history, which has them from the plan.
pub fn report(
    alloc: Global,
    trace: &Trace,
    _plan: &Commands,
    config: &Config,
    json: bool,
    total_only: bool,
) -> Result<Vec<u8>, Memory>
    requires run { Run config.now (history_of trace.now) }
    requires follows { Follows _plan.now (history_of trace.now) }
    requires spelled { AllSpelled (history_of trace.now) }
    ensures text { IfOk result (λ text. text.items ≡ text_of config.now json total_only (history_of trace.now)) }
    ensures utf8 { IfOk result (λ text. IsUtf8 text.items) }
{
    let agree = clocks_agree(trace, config.skew_us).is_none();
    report_with(alloc, trace, config, json, total_only, agree)
}

/// The report of a history, in which `agree` says whether clocks agreed.
pub(crate) fn report_with(
    alloc: Global,
    trace: &Trace,
    config: &Config,
    json: bool,
    total_only: bool,
    agree: bool,
) -> Result<Vec<u8>, Memory>
    ensures text { IfOk result (λ text. text.items ≡ text_with config.now json total_only (history_of trace.now) agree) }
    ensures utf8 { IfOk result (λ text. IsUtf8 text.items) }
{
    let seen = Seen::of(alloc, config, trace.entries.items())?;
    let mut text = String::new(alloc);
    if !total_only {
        put_sessions(alloc, &mut text, json, seen.sessions.as_slice())?;
        put_passes(alloc, &mut text, json, seen.passes.as_slice())?;
    }
    put_total(alloc, &mut text, json, &seen.counts, agree)?;
    Ok(text.into_bytes())
}

/// Puts the lines of all sessions at the end, by number.
fn put_sessions(
    alloc: Global,
    text: &mut String,
    json: bool,
    sessions: &[SessionLines<'_>],
) -> Result<(), Memory>
    requires { length sessions.now ≡ last_session + 1 }
    ensures { OnOk result (string_bytes text.new ≡ string_bytes text.old ++ flat_map (kept_lines json sessions.now) (from_up 1 last_session)) }
{
    for session in 1..sessions.len() {
        let of_session = &sessions[session];
        put_session(alloc, text, json, session, of_session.lines.as_slice())?;
    }
    Ok(())
}

/// Puts the lines of a session at the end, numbered from 1.
fn put_session(
    alloc: Global,
    text: &mut String,
    json: bool,
    session: usize,
    lines: &[ToldLine<'_>],
) -> Result<(), Memory>
    ensures { OnOk result (string_bytes text.new ≡ string_bytes text.old ++ numbered_lines json session 1 lines.now) }
{
    for (at, line) in lines.iter().enumerate() {
        let number = at + 1;
        let call = format!(in alloc; "{session}.{number}")?;
        put_line(alloc, text, json, &call, line)?;
    }
    Ok(())
}

/// Puts the lines of the last passes at the end, by tablet.
fn put_passes(
    alloc: Global,
    text: &mut String,
    json: bool,
    passes: &[Option<ToldLine<'_>>],
) -> Result<(), Memory>
    ensures { OnOk result (string_bytes text.new ≡ string_bytes text.old ++ flat_map (kept_passes json passes.now) (from_up 0 (length passes.now))) }
{
    for (tablet, pass) in passes.iter().enumerate() {
        put_pass(alloc, text, json, tablet, pass)?;
    }
    Ok(())
}

/// Puts the line of the last pass over a tablet at the end, where there was a pass.
fn put_pass(
    alloc: Global,
    text: &mut String,
    json: bool,
    tablet: usize,
    pass: &Option<ToldLine<'_>>,
) -> Result<(), Memory>
    ensures { OnOk result (string_bytes text.new ≡ string_bytes text.old ++ kept_pass json tablet pass.now) }
{
    let Some(line) = pass else {
        return Ok(());
    };
    let call = format!(in alloc; "t{tablet}")?;
    put_line(alloc, text, json, &call, line)
}
