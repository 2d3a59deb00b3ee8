//! Bytes up to a stated number.
ghost use Rattle.std.specs.Prelude.{◌≡◌, ◌≤◌, ◌-◌, ◌++◌, [], length, take, min, IfOk, vec_capacity};

use docdb_base::Memory;
use std::alloc::Global;

/// Bytes, and room for a stated number of them, for which the memory is taken at the start.
#[derive(Debug, Drop)]
pub struct BoundedBytes {
    pub bytes: Vec<u8>,
    pub room: usize,
    ghost within: { length bytes.items ≤ room },
    ghost in_memory: { room ≤ vec_capacity bytes },
}

impl BoundedBytes {
    /// No bytes, and room for `room`.
    pub fn of(alloc: Global, room: usize) -> Result<BoundedBytes, Memory>
        ensures empty { IfOk result (λ s. s.bytes.items ≡ []) }
        ensures room { IfOk result (λ s. s.room ≡ room) }
    {
        Ok(BoundedBytes {
            bytes: Vec::with_capacity(alloc, room)?,
            room,
        })
    }

    /// Puts the front of `piece` at the end, as far as there is room, and answers how many bytes that is.
    pub fn put(&mut self, piece: &[u8]) -> usize
        ensures count { result ≡ min (length piece.now) (self.old.room - length self.old.bytes.items) }
        ensures bytes { self.new.bytes.items ≡ self.old.bytes.items ++ take result piece.now }
        ensures room { self.new.room ≡ self.old.room }
    {
        let count = piece.len().min(self.room - self.bytes.len());
        self.bytes.extend_from_slice(&piece[..count]).unwrap();
        count
    }
}
