//! What the lines of a session show.
use std::marker::Model;
use txn_types::Told;

/// What a line shows of a command: its word, and what was told.
#[derive(Drop)]
pub(crate) struct ToldLine<'a> {
    pub word: &'static str,
    pub told: &'a Told,
}

impl<'a> Model for ToldLine<'a> {
    ghost use Rattle.report_text.specs.Shown.{Shown};

    ghost Value = { Shown };

    ghost view = { λ l. record { word = l.word.now; told = l.told.now } };
}
