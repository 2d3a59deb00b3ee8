//! What a move did besides adding an entry.

/// What a move did besides adding an entry.
#[derive(Clone, Copy, Debug, PartialEq, Eq)]
pub enum Moved {
    /// It told a `clock` command: from now on the clock of this node reads so many microseconds.
    Clock { node: u32, micros: u64 },
    /// Nothing.
    Event,
}
