//! What sessions are told of read times in every run, for proofs of callers. A call does nothing.
ghost use Rattle.law_read_times.specs.Laws.{ReadsAreUp, WritesReadAsOpen};

/// Values are told to a read, not below the read time of the open transaction; a begin is told to a session that has none
/// open, with the id that it uses next.
pub fn reads_are_up()
    ensures { ReadsAreUp }
{}

/// A write reads at a time at which its session had the transaction open.
pub fn writes_read_as_open()
    ensures { WritesReadAsOpen }
{}
