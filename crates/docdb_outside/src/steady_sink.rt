//! A sink in memory that never fails.
ghost use Rattle.std.specs.Prelude.{◌≡◌, ◌≤◌, ◌-◌, [], length, min, Some, Ok, IfOk};
ghost use Rattle.docdb_outside.specs.SteadySink.{after_write};

use crate::bounded_bytes::BoundedBytes;
use crate::failed::Failed;
use crate::sink::Sink;
use docdb_base::Memory;
use std::alloc::Global;
use std::marker::Model;

/// Room in memory for a stated number of bytes, of which a write fills as much as its piece has bytes for. It never
/// fails.
#[derive(Debug, Drop)]
pub struct SteadySink {
    bytes: BoundedBytes,
    stalls: u64,
}

impl Model for SteadySink {
    ghost use Rattle.docdb_outside.specs.SteadySink.{SteadyState};

    ghost Value = { SteadyState };

    ghost view = { λ s. record { taken = s.bytes.bytes.items; room = s.bytes.room; stalls = s.stalls } };
}

impl SteadySink {
    /// A sink with room for `room` bytes. It takes the memory for them at once.
    pub fn of(alloc: Global, room: usize) -> Result<SteadySink, Memory>
        ensures { IfOk result (λ sink. sink ≡ record { taken = []; room = room; stalls = 0 }) }
    {
        Ok(SteadySink {
            bytes: BoundedBytes::of(alloc, room)?,
            stalls: 0,
        })
    }

    /// The bytes taken. It takes no memory.
    pub fn taken(&self) -> &[u8]
        ensures { result.now ≡ self.now.taken }
    {
        self.bytes.bytes.as_slice()
    }
}

impl Sink for SteadySink {
    ghost taken = { λ s. Some s.taken };

    ghost faults = { λ _. 0 };

    ghost stalls = { λ s. s.stalls };

    fn write(&mut self, buf: &[u8]) -> Result<usize, Failed>
        ensures count { result ≡ Ok (min (length buf.now) (self.old.room - length self.old.taken)) }
        ensures after { IfOk result (λ n. self.new ≡ after_write self.old n buf.now) }
        ensures stalls { self.old.stalls ≤ self.new.stalls }
    {
        let count = self.bytes.put(buf);
        if count == 0 && !buf.is_empty() {
            self.stalls = self.stalls.saturating_add(1);
        }
        Ok(count)
    }
}
