//! The first walk over a history: what is known of each session, and the first read that fails.
ghost use Rattle.std.specs.Prelude.{◌≡◌, ℕ, ◌<◌, ◌∷◌, [], length, reverse, IfSome};
ghost use Rattle.txn_types.specs.History.{History};
ghost use Rattle.trace_merge.specs.Seen.{session_row, JudgedFirst};
ghost use Rattle.trace_merge.specs.Walked.{Walked};

use crate::events::finishes_read;
use crate::failed_read::{FailedRead, earlier};
use crate::session_clocks::SessionClocks;
use txn_types::{Actor, Entry};

/// The greatest number of a session.
const MOST_SESSIONS: u32 = 1000;

/// The first walk over a history.
#[derive(Drop)]
pub struct Walk {
    /// What is known of each session, by its number.
    pub sessions: [SessionClocks; 1001],
    /// The greatest reading so far, in microseconds, or 0.
    pub greatest: u64,
    /// Of the reads that fail, the one that starts first.
    pub failed: Option<FailedRead>,
}

impl Walk {
    /// Before the first entry.
    pub fn new() -> Walk
        ensures { (skew : ℕ) → Walked skew [] result }
    {
        Walk {
            sessions: [SessionClocks::new(); 1001],
            greatest: 0,
            failed: None,
        }
    }

    /// Goes over the entry at this place.
    pub fn go_over(&mut self, place: u64, entry: &Entry, skew_us: u64)
        ensures { (h : History) → place ≡ length h → Walked skew_us h self.old → Walked skew_us (entry.now ∷ h) self.new }
    {
        if let Some(row) = row_of(entry.actor) {
            let clocks = self.sessions[row];
            if finishes_read(&entry.event) {
                self.failed = earlier(self.failed, clocks.failed(skew_us));
            }
            self.sessions[row] = clocks.after(place, self.greatest, entry);
        }
        self.greatest = self.greatest.max(entry.reading.unwrap_or(0));
    }
}

/// The row of a session in the table, where the actor is one.
fn row_of(actor: Actor) -> Option<usize>
    ensures row { result ≡ session_row actor }
    ensures there { IfSome result (λ row. row < 1001) }
{
    match actor {
        Actor::Session(number) => {
            if number <= MOST_SESSIONS {
                Some(number as usize)
            } else {
                None
            }
        }
        _ => None,
    }
}

/// Of the finished reads of a history that fail, the one that starts first.
pub fn first_failed(entries: &[Entry], skew_us: u64) -> Option<FailedRead>
    ensures { JudgedFirst skew_us (reverse entries.now) result }
{
    let mut walk = Walk::new();
    for (place, entry) in entries.iter().enumerate() {
        walk.go_over(place as u64, entry, skew_us);
    }
    walk.failed
}
