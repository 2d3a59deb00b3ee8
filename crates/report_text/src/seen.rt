//! One walk over a history.
ghost use Rattle.std.specs.Prelude.{◌≡◌, ◌+◌, ◌∷◌, None, replicate, reverse, IfOk, OnOk};
ghost use Rattle.txn_data.specs.declared.config.Config.{Config as Cluster};
ghost use Rattle.txn_types.specs.History.{History};
ghost use Rattle.report_text.specs.Text.{last_session};
ghost use Rattle.report_text.specs.Walk.{Changed, Saw, counts_on, nothing_shown, pass_on, session_with};

use crate::counts::Counts;
use crate::session_lines::SessionLines;
use crate::told_line::ToldLine;
use crate::word::word_of;
use docdb_base::Memory;
use std::alloc::Global;
use txn_types::{Actor, Config, Entry, Event};

/// The greatest number that a session has.
const LAST_SESSION: usize = 1_000;

/// What a walk has of the entries so far. It holds three words for each told command, and the texts are not made yet.
#[derive(Drop)]
pub(crate) struct Seen<'a> {
    /// Each session at its number.
    pub sessions: Vec<SessionLines<'a>>,
    /// Each last pass at its tablet.
    pub passes: Vec<Option<ToldLine<'a>>>,
    pub counts: Counts,
}

impl<'a> Seen<'a> {
    /// What a history has.
    pub(crate) fn of(
        alloc: Global,
        config: &Config,
        entries: &'a [Entry],
    ) -> Result<Seen<'a>, Memory>
        ensures { IfOk result (λ seen. Saw config.now (reverse entries.now) seen.sessions.items seen.passes.items seen.counts) }
    {
        let mut seen = Seen {
            sessions: no_lines(alloc)?,
            passes: no_passes(alloc, config.tablets)?,
            counts: Counts::none(),
        };
        for entry in entries {
            seen.take(entry)?;
        }
        Ok(seen)
    }

    /// Takes one more entry in. If memory runs out, the value has no meaning any more, and is to be dropped.
    fn take(&mut self, entry: &'a Entry) -> Result<(), Memory>
        ensures { (config : Cluster) (h : History) → Saw config h self.old.sessions.items self.old.passes.items self.old.counts
            → OnOk result (Saw config (entry.now ∷ h) self.new.sessions.items self.new.passes.items self.new.counts) }
    {
        match entry.actor {
            Actor::Session(session) => {
                self.counts = counts_on(self.counts, &entry.event)?;
                take_session(&mut self.sessions, session as usize, &entry.event)
            }
            Actor::Applier(tablet) => {
                take_pass(&mut self.passes, tablet as usize, &entry.event);
                Ok(())
            }
            Actor::Tablet(_) | Actor::Status(_) => Ok(()),
        }
    }
}

/// No session has lines yet.
fn no_lines<'a>(alloc: Global) -> Result<Vec<SessionLines<'a>>, Memory>
    ensures { IfOk result (λ sessions. sessions.items ≡ replicate (last_session + 1) nothing_shown) }
{
    let mut sessions = Vec::new(alloc);
    for _session in 0..LAST_SESSION + 1 {
        sessions.push(SessionLines {
            word: "",
            lines: Vec::new(alloc),
        })?;
    }
    Ok(sessions)
}

/// No pass over any tablet was told yet.
fn no_passes<'a>(alloc: Global, tablets: u32) -> Result<Vec<Option<ToldLine<'a>>>, Memory>
    ensures { IfOk result (λ passes. passes.items ≡ replicate tablets None) }
{
    let mut passes = Vec::new(alloc);
    for _tablet in 0..tablets {
        passes.push(None)?;
    }
    Ok(passes)
}

/// The counts after an event of a session.
fn counts_on(counts: Counts, event: &Event) -> Result<Counts, Memory>
    ensures { IfOk result (λ n. n ≡ counts_on event.now counts) }
{
    match event {
        Event::Tell { told, .. } => counts.with(told),
        _ => Ok(counts),
    }
}

/// An event of a session. A session without a place here is left out.
fn take_session<'a>(
    sessions: &mut Vec<SessionLines<'a>>,
    session: usize,
    event: &'a Event,
) -> Result<(), Memory>
    ensures { OnOk result (Changed session (session_with event.now) sessions.old.items sessions.new.items) }
{
    if session >= sessions.len() {
        return Ok(());
    }
    let of_session = &mut sessions[session];
    match event {
        Event::Start { line, .. } => {
            of_session.word = word_of(line);
            Ok(())
        }
        Event::Tell { told, .. } => of_session.tell(told),
        _ => Ok(()),
    }
}

/// An event of an applier. A tablet without a place here is left out.
fn take_pass<'a>(passes: &mut Vec<Option<ToldLine<'a>>>, tablet: usize, event: &'a Event)
    ensures { Changed tablet (pass_on event.now) passes.old.items passes.new.items }
{
    if let Event::Tell { told, .. } = event {
        if tablet < passes.len() {
            passes[tablet] = Some(ToldLine { word: "last", told });
        }
    }
}
