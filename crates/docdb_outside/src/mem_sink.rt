//! A sink in memory that fails and stalls where it is told to.
ghost use Rattle.std.specs.Prelude.{◌≡◌, ◌≤◌, [], length, Some, IfOk, OnErr, is_err};
ghost use Rattle.docdb_outside.specs.MemSink.{fails_next, next_count, after_write, after_fault};

use crate::bounded_bytes::BoundedBytes;
use crate::failed::Failed;
use crate::sink::Sink;
use docdb_base::Memory;
use std::alloc::Global;
use std::marker::Model;

/// Room in memory for a stated number of bytes, of which a write fills a stated number at most. The writes that its
/// script names fail, or take nothing; no others fail, and others take nothing of a piece only where the room is full.
#[derive(Debug, Drop)]
pub struct MemSink {
    bytes: BoundedBytes,
    per_write: usize,
    fails: Vec<u64>,
    stalls_at: Vec<u64>,
    calls: u64,
    faults: u64,
    stalls: u64,
}

impl Model for MemSink {
    ghost use Rattle.std.specs.Prelude.{◌≤◌};
    ghost use Rattle.docdb_outside.specs.MemSink.{SinkState};

    ghost Value = { SinkState };

    ghost view = { λ s. record {
      taken = s.bytes.bytes.items;
      room = s.bytes.room;
      per_write = s.per_write;
      fails = s.fails.items;
      stalls_at = s.stalls_at.items;
      calls = s.calls;
      faults = s.faults;
      stalls = s.stalls;
    } };

    ghost invariant = { λ s. 1 ≤ s.per_write };
}

impl MemSink {
    /// A sink with room for `room` bytes, for which it takes the memory at once. A write takes at most `per_write`. The
    /// writes whose numbers are in `fails` fail, and those in `stalls` take nothing, the first being number 1.
    pub fn of(
        alloc: Global,
        room: usize,
        per_write: usize,
        fails: Vec<u64>,
        stalls: Vec<u64>,
    ) -> Result<MemSink, Memory>
        requires { 1 ≤ per_write }
        ensures { IfOk result (λ sink. sink ≡ record {
          taken = [];
          room = room;
          per_write = per_write;
          fails = fails.items;
          stalls_at = stalls.items;
          calls = 0;
          faults = 0;
          stalls = 0;
        }) }
    {
        Ok(MemSink {
            bytes: BoundedBytes::of(alloc, room)?,
            per_write,
            fails,
            stalls_at: stalls,
            calls: 0,
            faults: 0,
            stalls: 0,
        })
    }

    /// The bytes taken. It takes no memory.
    pub fn taken(&self) -> &[u8]
        ensures { result.now ≡ self.now.taken }
    {
        self.bytes.bytes.as_slice()
    }
}

impl Sink for MemSink {
    ghost taken = { λ s. Some s.taken };

    ghost faults = { λ s. s.faults };

    ghost stalls = { λ s. s.stalls };

    fn write(&mut self, buf: &[u8]) -> Result<usize, Failed>
        ensures fails { is_err result ≡ fails_next self.old }
        ensures count { IfOk result (λ n. n ≡ next_count self.old (length buf.now)) }
        ensures ok { IfOk result (λ n. self.new ≡ after_write self.old n buf.now) }
        ensures err { OnErr result (self.new ≡ after_fault self.old) }
        ensures faults { self.old.faults ≤ self.new.faults }
        ensures stalls { self.old.stalls ≤ self.new.stalls }
    {
        self.calls = self.calls.saturating_add(1);
        if self.fails.contains(&self.calls) {
            self.faults = self.faults.saturating_add(1);
            return Err(Failed);
        }
        let most = if self.stalls_at.contains(&self.calls) {
            0
        } else {
            buf.len().min(self.per_write)
        };
        let count = self.bytes.put(&buf[..most]);
        if count == 0 && !buf.is_empty() {
            self.stalls = self.stalls.saturating_add(1);
        }
        Ok(count)
    }
}
