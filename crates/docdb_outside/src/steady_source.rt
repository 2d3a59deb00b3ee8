//! A source in memory that never fails.
ghost use Rattle.std.specs.Prelude.{◌≡◌, ◌<◌, [], length, take, drop, min, Some, Ok, IfOk};

use crate::failed::Failed;
use crate::source::Source;
use std::marker::Model;

/// Bytes in memory, of which a read moves as many as there is room for. It never fails. Contracts see the bytes left.
#[derive(Debug, Drop)]
pub struct SteadySource {
    bytes: Vec<u8>,
    at: usize,
}

impl Model for SteadySource {
    ghost use Rattle.std.specs.Prelude.{ℕ, List, drop, length, ◌≤◌};

    ghost Value = { List ℕ };

    ghost view = { λ s. drop s.at s.bytes.items };

    ghost invariant = { λ s. s.at ≤ length s.bytes.items };
}

impl SteadySource {
    /// A source of these bytes.
    pub fn of(bytes: Vec<u8>) -> SteadySource
        ensures { result ≡ bytes.items }
    {
        SteadySource { bytes, at: 0 }
    }
}

impl Source for SteadySource {
    ghost left = { λ bytes. Some bytes };

    ghost faults = { λ _. 0 };

    fn read(&mut self, buf: &mut [u8]) -> Result<usize, Failed>
        ensures count { result ≡ Ok (min (length buf.old) (length self.old)) }
        ensures copied { IfOk result (λ n. take n buf.new ≡ take n self.old) }
        ensures at_end { IfOk result (λ n. n ≡ 0 → 0 < length buf.new → self.old ≡ []) }
        ensures left { IfOk result (λ n. self.new ≡ drop n self.old) }
    {
        let rest = &self.bytes[self.at..];
        let count = buf.len().min(rest.len());
        buf[..count].copy_from_slice(&rest[..count]);
        self.at += count;
        Ok(count)
    }
}
