//! Replies at the end of a line.
use crate::line::Line;
use doc_path::Path;
use docdb_base::Memory;
use hybrid_time::HybridTime;
use txn_types::{Found, Refusal, Reply};

impl Line {
    /// Puts a reply at the end.
    pub fn reply(&mut self, reply: &Reply) -> Result<(), Memory> {
        match reply {
            Reply::Others(founds) => self.word_founds(b"others", founds.items()),
            Reply::Listed { limit, others } => self.listed(*limit, others.items()),
            Reply::Collected(rows) => {
                self.word(b"collected")?;
                self.rows(rows.items())
            }
            Reply::Met { at, path } => self.met(*at, path),
            Reply::Intents(founds) => self.word_founds(b"intents", founds.items()),
            Reply::FateIs(fate) => {
                self.word(b"fate")?;
                self.fate(*fate)
            }
            Reply::AbortedBy { by } => self.word_txn(b"aborted_by", *by),
            Reply::Restarted { kept } => self.word_kept(b"restarted", *kept),
            Reply::Refused(refusal) => self.refusal(refusal),
            reply => self.timed_reply(reply),
        }
    }

    fn timed_reply(&mut self, reply: &Reply) -> Result<(), Memory> {
        match reply {
            Reply::Written { at } => self.word_time(b"written", *at),
            Reply::SingleDone { at } => self.word_time(b"single_done", *at),
            Reply::Committed { at } => self.word_time(b"committed", *at),
            Reply::AppliedHere => self.word(b"applied_here"),
            Reply::Cleaned => self.word(b"cleaned"),
            Reply::Begun => self.word(b"begun"),
            Reply::Gone => self.word(b"gone"),
            Reply::Ended => self.word(b"ended"),
            _ => self.word(b"noted"),
        }
    }

    fn word_founds(&mut self, word: &[u8], founds: &[Found]) -> Result<(), Memory> {
        self.word(word)?;
        self.founds(founds)
    }

    fn listed(&mut self, limit: HybridTime, founds: &[Found]) -> Result<(), Memory> {
        self.word_time(b"listed", limit)?;
        self.founds(founds)
    }

    fn met(&mut self, at: HybridTime, path: &Path) -> Result<(), Memory> {
        self.word_time(b"met", at)?;
        self.path(path)
    }

    fn refusal(&mut self, refusal: &Refusal) -> Result<(), Memory> {
        self.word(b"refused")?;
        match refusal {
            Refusal::Conflict { other } => self.word_txn(b"conflict", *other),
            Refusal::Overlap { at } => self.word_time(b"overlap", *at),
            Refusal::LeaseHeld { until } => self.word_number(b"lease_held", *until),
            Refusal::ClockFull { at } => self.word_time(b"clock_full", *at),
            Refusal::ClockRange { reading } => self.word_number(b"clock_range", *reading),
            Refusal::LogFault => self.word(b"log_fault"),
            Refusal::Down { since } => self.word_number(b"down", *since),
            Refusal::Memory => self.word(b"memory"),
        }
    }
}
