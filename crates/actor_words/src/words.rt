//! The words of a line.
ghost use Rattle.std.specs.Prelude.{◌≡◌, ◌<◌, length, OnOk, IfSome};

use crate::not_read::NotRead;
use crate::numbers::{number_of, small_of};
use crate::terms::{time_of, txn_of};
use hybrid_time::HybridTime;
use txn_types::TxnId;

/// The words that are left of a line. They are separated by single spaces.
#[derive(Drop)]
pub struct Words<'a> {
    left: &'a [u8],
    is_over: bool,
}

impl<'a> Words<'a> {
    ghost use Rattle.actor_words.specs.Words.{size};

    /// The words of a line.
    pub fn of(line: &'a [u8]) -> Words<'a> {
        Words {
            left: line,
            is_over: false,
        }
    }

    /// The next word.
    pub fn next(&mut self) -> Result<&'a [u8], NotRead>
        ensures { OnOk result (size self.new < size self.old) }
    {
        if self.is_over {
            return Err(NotRead::Form);
        }
        let line = self.left;
        match space_of(line) {
            Some(at) => {
                self.left = &line[at + 1..];
                Ok(&line[..at])
            }
            None => {
                self.left = &[];
                self.is_over = true;
                Ok(line)
            }
        }
    }

    /// Whether no word is left.
    pub fn is_over(&self) -> bool
        ensures { result ≡ self.now.is_over }
    {
        self.is_over
    }

    /// Whether what is left begins with this byte.
    pub(crate) fn begins(&self, byte: u8) -> bool {
        self.left.first() == Some(&byte)
    }

    /// The line ends here.
    pub fn end(&self) -> Result<(), NotRead> {
        if self.is_over {
            Ok(())
        } else {
            Err(NotRead::Form)
        }
    }

    /// The next word is this one.
    pub fn expect(&mut self, expected: &[u8]) -> Result<(), NotRead> {
        if self.next()? == expected {
            Ok(())
        } else {
            Err(NotRead::Form)
        }
    }

    /// The number that the next word spells.
    pub fn number(&mut self) -> Result<u64, NotRead> {
        number_of(self.next()?)
    }

    /// The number of 32 bits that the next word spells.
    pub fn small(&mut self) -> Result<u32, NotRead> {
        small_of(self.next()?)
    }

    /// The time that the next word spells.
    pub(crate) fn time(&mut self) -> Result<HybridTime, NotRead> {
        time_of(self.next()?)
    }

    /// The transaction that the next word spells.
    pub(crate) fn txn(&mut self) -> Result<TxnId, NotRead> {
        txn_of(self.next()?)
    }
}

// Where the first space is.
fn space_of(line: &[u8]) -> Option<usize>
    ensures { IfSome result (λ at. at < length line.now) }
{
    for (at, byte) in line.iter().enumerate() {
        if *byte == b' ' {
            return Some(at);
        }
    }
    None
}
