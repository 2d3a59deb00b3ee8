//! A sink over a writer of std.
ghost use Rattle.std.specs.Prelude.{◌≡◌, ◌≤◌, None, length, IfOk, OnOk, OnErr};
ghost use Rattle.std.specs.Io.KnownBytes.{WriteAppends};
ghost use Rattle.docdb_outside.specs.Count.{step};
ghost use Rattle.docdb_outside.specs.Sink.{stalls_after};

use crate::failed::Failed;
use crate::sink::Sink;
use std::io::Write;
use std::marker::Model;

/// A sink over a writer of std. It tells nothing of the bytes taken.
#[derive(Drop)]
pub struct StdSink<W: Write + Drop> {
    writer: W,
    faults: u64,
    stalls: u64,
}

impl<W: Write + Drop> Model for StdSink<W> {
    ghost use Rattle.docdb_outside.specs.StdSink.{WriterState};

    ghost Value = { WriterState W };

    ghost view = { λ s. record { writer = s.writer; faults = s.faults; stalls = s.stalls } };
}

impl<W: Write + Drop> StdSink<W> {
    /// A sink over this writer.
    pub fn of(writer: W) -> StdSink<W>
        ensures { result ≡ record { writer = writer; faults = 0; stalls = 0 } }
    {
        StdSink {
            writer,
            faults: 0,
            stalls: 0,
        }
    }
}

impl<W: Write + Drop> Sink for StdSink<W> {
    ghost taken = { λ _. None };

    ghost faults = { λ s. s.faults };

    ghost stalls = { λ s. s.stalls };

    fn write(&mut self, buf: &[u8]) -> Result<usize, Failed>
        ensures bound { IfOk result (λ n. n ≤ length buf.now) }
        ensures faults { self.old.faults ≤ self.new.faults }
        ensures stalls { self.old.stalls ≤ self.new.stalls }
        ensures ok { OnOk result (self.new.faults ≡ self.old.faults) }
        ensures failed { OnErr result (self.new.faults ≡ step self.old.faults) }
        ensures stalled { IfOk result (λ n. self.new.stalls ≡ stalls_after self.old.stalls n (length buf.now)) }
        ensures not_stalled { OnErr result (self.new.stalls ≡ self.old.stalls) }

        // What std says of the bytes holds here too.
        ensures bytes { WriteAppends (W.contents self.old.writer) (W.contents self.new.writer) result buf.now }
    {
        match self.writer.write(buf) {
            Ok(count) => {
                if count == 0 && !buf.is_empty() {
                    self.stalls = self.stalls.saturating_add(1);
                }
                Ok(count)
            }
            Err(_) => {
                self.faults = self.faults.saturating_add(1);
                Err(Failed)
            }
        }
    }
}
