//! A source in memory that fails where it is told to.
ghost use Rattle.std.specs.Prelude.{◌≡◌, ◌≤◌, ◌<◌, [], length, take, Some, IfOk, OnErr, is_err};
ghost use Rattle.docdb_outside.specs.MemSource.{fails_next, next_count, after_read, after_fault};

use crate::failed::Failed;
use crate::source::Source;
use crate::steady_source::SteadySource;
use std::marker::Model;

/// Bytes in memory, of which a read moves a stated number at most. The reads that its script names fail, and no others.
#[derive(Debug, Drop)]
pub struct MemSource {
    bytes: SteadySource,
    per_read: usize,
    fails: Vec<u64>,
    calls: u64,
    faults: u64,
}

impl Model for MemSource {
    ghost use Rattle.std.specs.Prelude.{◌≤◌};
    ghost use Rattle.docdb_outside.specs.MemSource.{SourceState};

    ghost Value = { SourceState };

    ghost view = { λ s. record {
      left = s.bytes;
      per_read = s.per_read;
      fails = s.fails.items;
      calls = s.calls;
      faults = s.faults;
    } };

    ghost invariant = { λ s. 1 ≤ s.per_read };
}

impl MemSource {
    /// A source of these bytes, of which a read moves at most `per_read`. The reads whose numbers are in `fails` fail,
    /// the first being number 1.
    pub fn of(bytes: Vec<u8>, per_read: usize, fails: Vec<u64>) -> MemSource
        requires { 1 ≤ per_read }
        ensures { result ≡ record {
          left = bytes.items;
          per_read = per_read;
          fails = fails.items;
          calls = 0;
          faults = 0;
        } }
    {
        MemSource {
            bytes: SteadySource::of(bytes),
            per_read,
            fails,
            calls: 0,
            faults: 0,
        }
    }
}

impl Source for MemSource {
    ghost left = { λ s. Some s.left };

    ghost faults = { λ s. s.faults };

    fn read(&mut self, buf: &mut [u8]) -> Result<usize, Failed>
        ensures fails { is_err result ≡ fails_next self.old }
        ensures count { IfOk result (λ n. n ≡ next_count self.old (length buf.old)) }
        ensures copied { IfOk result (λ n. take n buf.new ≡ take n self.old.left) }
        ensures at_end { IfOk result (λ n. n ≡ 0 → 0 < length buf.new → self.old.left ≡ []) }
        ensures ok { IfOk result (λ n. self.new ≡ after_read self.old n) }
        ensures err { OnErr result (self.new ≡ after_fault self.old) }
        ensures faults { self.old.faults ≤ self.new.faults }
    {
        self.calls = self.calls.saturating_add(1);
        if self.fails.contains(&self.calls) {
            self.faults = self.faults.saturating_add(1);
            return Err(Failed);
        }
        let most = buf.len().min(self.per_read);
        self.bytes.read(&mut buf[..most])
    }
}
