//! Whether clocks agreed.
ghost use Rattle.std.specs.Prelude.{◌≡◌, ◌+◌, reverse};
ghost use Rattle.txn_data.specs.declared.config.Config.{Config};
ghost use Rattle.txn_types.specs.History.{history_of};
ghost use Rattle.txn_types.specs.Run.{Run};
ghost use Rattle.trace_merge.specs.Clocks.{ClocksAgree, is_above, first_above};

use crate::failed_read::is_ahead;
use crate::walk::first_failed;
use law_own_readings::origins_show;
use txn_types::{Entry, Trace};

/// Whether clocks agreed within this many microseconds, at each finished read of a run.
///
/// `None` says that no finished read has a reading before its origin that is above its own reading plus the skew. Else
/// the answer is two places of the history, counted from 0: that of the Start of the first such read, by Start, and that
/// of the first reading that is so. It takes no memory. Of a history that is no run it says nothing.
pub fn clocks_agree(trace: &Trace, skew_us: u64) -> Option<(u64, u64)>
    ensures { (config : Config) → Run config (history_of trace.now) → ClocksAgree config skew_us (history_of trace.now) result }
{
    origins_show();
    let entries = trace.entries.items();
    let read = first_failed(entries, skew_us)?;
    let shown = place_above(entries, read.own, skew_us)?;
    Some((read.start, shown))
}

/// Whether there is a reading and it is above another one plus the skew.
fn shows(reading: Option<u64>, own: u64, skew_us: u64) -> bool
    ensures { result ≡ is_above (own + skew_us) reading }
{
    match reading {
        Some(reading) => is_ahead(reading, own, skew_us),
        None => false,
    }
}

/// The place, from 0, of the first reading of a history that is above this one plus the skew.
fn place_above(entries: &[Entry], own: u64, skew_us: u64) -> Option<u64>
    ensures { result ≡ first_above (own + skew_us) (reverse entries.now) }
{
    for (place, entry) in entries.iter().enumerate() {
        if shows(entry.reading, own, skew_us) {
            return Some(place as u64);
        }
    }
    None
}
