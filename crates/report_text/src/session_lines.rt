//! What a session has so far.
ghost use Rattle.std.specs.Prelude.{◌≡◌, OnOk};
ghost use Rattle.report_text.specs.Walk.{with_told};

use crate::told_line::ToldLine;
use docdb_base::Memory;
use std::marker::Model;
use txn_types::Told;

/// What a session has so far: the word of its command under way, and its lines.
#[derive(Drop)]
pub(crate) struct SessionLines<'a> {
    pub word: &'static str,
    pub lines: Vec<ToldLine<'a>>,
}

impl<'a> Model for SessionLines<'a> {
    ghost use Rattle.report_text.specs.Shown.{SessionShown};

    ghost Value = { SessionShown };

    ghost view = { λ s. record { word = s.word.now; lines = s.lines.items } };
}

impl<'a> SessionLines<'a> {
    /// The command under way is told. If memory runs out, it is under way no more, and has no line.
    pub(crate) fn tell(&mut self, told: &'a Told) -> Result<(), Memory>
        ensures { OnOk result (self.new ≡ with_told told.now self.old) }
    {
        let word = self.word;
        self.word = "";
        self.lines.push(ToldLine { word, told })?;
        Ok(())
    }
}
