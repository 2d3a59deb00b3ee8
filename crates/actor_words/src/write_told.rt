//! What is told, at the end of a line.
use crate::line::Line;
use doc_path::Path;
use docdb_base::Memory;
use hybrid_time::HybridTime;
use txn_types::{Actor, Row, Told, ToldRefusal, TxnId};

impl Line {
    /// Puts what is told at the end.
    pub fn told(&mut self, told: &Told) -> Result<(), Memory> {
        match told {
            Told::Began { txn, at } => self.txn_time(b"began", *txn, *at),
            Told::Written { at } => self.word_time(b"written", *at),
            Told::Committed { txn, at } => self.txn_time(b"committed", *txn, *at),
            Told::Ended { txn } => self.word_txn(b"ended", *txn),
            Told::Values { at, restarts, rows } => self.values(*at, *restarts, rows.items()),
            Told::Restarted { kept } => self.word_kept(b"restarted", *kept),
            Told::Passed {
                applied,
                cleaned,
                left,
            } => self.passed(*applied, *cleaned, *left),
            Told::Set => self.word(b"set"),
            Told::Refused(refusal) => self.told_refusal(refusal),
        }
    }

    fn txn_time(&mut self, word: &[u8], txn: TxnId, at: HybridTime) -> Result<(), Memory> {
        self.word_txn(word, txn)?;
        self.time(at)
    }

    fn values(&mut self, at: HybridTime, restarts: u32, rows: &[Row]) -> Result<(), Memory> {
        self.word_time(b"values", at)?;
        self.word_number(b"restarts", u64::from(restarts))?;
        self.rows(rows)
    }

    fn passed(&mut self, applied: u64, cleaned: u64, left: u64) -> Result<(), Memory> {
        self.word(b"passed")?;
        self.word_number(b"applied", applied)?;
        self.word_number(b"cleaned", cleaned)?;
        self.word_number(b"left", left)
    }

    fn told_refusal(&mut self, refusal: &ToldRefusal) -> Result<(), Memory> {
        self.word(b"refused")?;
        match refusal {
            ToldRefusal::LeaseHeld { actor, until } => {
                self.word_actor(b"lease_held", *actor)?;
                self.number(*until)
            }
            ToldRefusal::ClockFull { actor, at } => {
                self.word_actor(b"clock_full", *actor)?;
                self.time(*at)
            }
            ToldRefusal::ClockRange { actor, reading } => {
                self.word_actor(b"clock_range", *actor)?;
                self.number(*reading)
            }
            ToldRefusal::LogFault { actor } => self.word_actor(b"log_fault", *actor),
            ToldRefusal::Down { actor, since } => {
                self.word_actor(b"down", *actor)?;
                self.number(*since)
            }
            refusal => self.other_refusal(refusal),
        }
    }

    // A refusal that names no actor.
    fn other_refusal(&mut self, refusal: &ToldRefusal) -> Result<(), Memory> {
        match refusal {
            ToldRefusal::Conflict { other } => self.word_txn(b"conflict", *other),
            ToldRefusal::Overlap { at } => self.word_time(b"overlap", *at),
            ToldRefusal::Aborted { by } => self.word_txn(b"aborted_by", *by),
            ToldRefusal::Restart { at, path } => self.told_restart(*at, path),
            ToldRefusal::NoTxn => self.word(b"no_txn"),
            ToldRefusal::TxnOpen => self.word(b"txn_open"),
            ToldRefusal::InDoubt => self.word(b"in_doubt"),
            _ => self.word(b"memory"),
        }
    }

    fn told_restart(&mut self, at: HybridTime, path: &Path) -> Result<(), Memory> {
        self.word_time(b"restart", at)?;
        self.path(path)
    }

    fn word_actor(&mut self, word: &[u8], actor: Actor) -> Result<(), Memory> {
        self.word(word)?;
        self.actor(actor)
    }
}
