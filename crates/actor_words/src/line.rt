//! A line that is written.
use doc_path::Path;
use docdb_base::Memory;
use hybrid_time::HybridTime;
use std::alloc::Global;
use txn_types::{Actor, Bytes, TxnId};

/// A line that grows by words, with single spaces between them.
#[derive(Drop)]
pub struct Line {
    alloc: Global,
    bytes: Vec<u8>,
}

impl Line {
    /// The line that begins with these bytes.
    pub fn of(alloc: Global, bytes: &[u8]) -> Result<Line, Memory> {
        Ok(Line {
            alloc,
            bytes: bytes.to_vec(alloc)?,
        })
    }

    /// Its bytes.
    pub fn bytes(&self) -> &[u8] {
        self.bytes.as_slice()
    }

    /// Puts these bytes at the end, with no space before them.
    pub fn mark(&mut self, bytes: &[u8]) -> Result<(), Memory> {
        self.bytes.extend_from_slice(bytes)
    }

    /// Puts a word at the end.
    pub fn word(&mut self, word: &[u8]) -> Result<(), Memory> {
        if !self.bytes.is_empty() {
            self.bytes.push(b' ')?;
        }
        self.mark(word)
    }

    /// Puts a number at the end.
    pub fn number(&mut self, number: u64) -> Result<(), Memory> {
        let digits = format!(in self.alloc; "{number}")?;
        self.word(digits.as_bytes())
    }

    /// Puts a time at the end.
    pub fn time(&mut self, at: HybridTime) -> Result<(), Memory> {
        let (micros, logical) = (at.micros(), at.logical());
        let text = format!(in self.alloc; "{micros}.{logical}")?;
        self.word(text.as_bytes())
    }

    /// Puts a transaction at the end.
    pub fn txn(&mut self, txn: TxnId) -> Result<(), Memory> {
        let session = txn.number / 18_446_744_073_709_551_616;
        let serial = txn.number % 18_446_744_073_709_551_616;
        let text = format!(in self.alloc; "{session}.{serial}")?;
        self.word(text.as_bytes())
    }

    /// Puts an actor at the end.
    pub fn actor(&mut self, actor: Actor) -> Result<(), Memory> {
        match actor {
            Actor::Tablet(number) => self.lettered(b"t", number),
            Actor::Status(number) => self.lettered(b"s", number),
            Actor::Session(number) => self.number(u64::from(number)),
            Actor::Applier(number) => self.lettered(b"a", number),
        }
    }

    fn lettered(&mut self, letter: &[u8], number: u32) -> Result<(), Memory> {
        self.word(letter)?;
        let digits = format!(in self.alloc; "{number}")?;
        self.mark(digits.as_bytes())
    }

    /// Puts a path at the end.
    pub fn path(&mut self, path: &Path) -> Result<(), Memory> {
        self.word(b"")?;
        for part in path.as_parts() {
            self.mark(b"/")?;
            self.mark(part.items())?;
        }
        Ok(())
    }

    /// Puts a value at the end.
    pub fn value(&mut self, value: &Bytes) -> Result<(), Memory> {
        self.word(b"=")?;
        self.mark(value.items())
    }
}
