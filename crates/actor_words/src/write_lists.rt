//! Lists at the end of a line.
use crate::line::Line;
use doc_path::Path;
use docdb_base::Memory;
use hybrid_time::HybridTime;
use txn_types::{Actor, Fate, FateOf, Found, Op, Row, TxnId};

impl Line {
    /// Puts transactions and their status tablets at the end.
    pub(crate) fn founds(&mut self, founds: &[Found]) -> Result<(), Memory> {
        for found in founds {
            self.txn(found.txn)?;
            self.actor(Actor::Status(found.status))?;
        }
        Ok(())
    }

    /// Puts paths and their values at the end.
    pub(crate) fn rows(&mut self, rows: &[Row]) -> Result<(), Memory> {
        for row in rows {
            self.path(&row.path)?;
            match &row.value {
                Some(value) => self.value(value)?,
                None => self.word(b"-")?,
            }
        }
        Ok(())
    }

    /// Puts what a write does at the end.
    pub(crate) fn op(&mut self, op: &Op) -> Result<(), Memory> {
        match op {
            Op::Put(value) => self.value(value),
            Op::Delete => self.word(b"-"),
        }
    }

    /// Puts paths at the end.
    pub(crate) fn paths(&mut self, paths: &[Path]) -> Result<(), Memory> {
        self.word(b"paths")?;
        for path in paths {
            self.path(path)?;
        }
        Ok(())
    }

    /// Puts tablets at the end.
    pub(crate) fn tablets(&mut self, tablets: &[u32]) -> Result<(), Memory> {
        self.word(b"tablets")?;
        for tablet in tablets {
            self.number(u64::from(*tablet))?;
        }
        Ok(())
    }

    /// Puts transactions and their fates at the end.
    pub(crate) fn fates(&mut self, fates: &[FateOf]) -> Result<(), Memory> {
        self.word(b"fates")?;
        for known in fates {
            self.txn(known.txn)?;
            self.fate(known.fate)?;
        }
        Ok(())
    }

    /// Puts a fate at the end.
    pub(crate) fn fate(&mut self, fate: Fate) -> Result<(), Memory> {
        match fate {
            Fate::Pending => self.word(b"pending"),
            Fate::Committed { at } => self.word_time(b"committed", at),
            Fate::Aborted => self.word(b"aborted"),
            Fate::Absent => self.word(b"absent"),
        }
    }

    /// Puts a word and a time at the end.
    pub(crate) fn word_time(&mut self, word: &[u8], at: HybridTime) -> Result<(), Memory> {
        self.word(word)?;
        self.time(at)
    }

    /// Puts a word and a number at the end.
    pub(crate) fn word_number(&mut self, word: &[u8], number: u64) -> Result<(), Memory> {
        self.word(word)?;
        self.number(number)
    }

    /// Puts a word and a transaction at the end.
    pub(crate) fn word_txn(&mut self, word: &[u8], txn: TxnId) -> Result<(), Memory> {
        self.word(word)?;
        self.txn(txn)
    }

    /// Puts a word, and whether a log had kept a piece, at the end.
    pub(crate) fn word_kept(&mut self, word: &[u8], kept: bool) -> Result<(), Memory> {
        self.word(word)?;
        if kept { self.word(b"kept") } else { Ok(()) }
    }
}
