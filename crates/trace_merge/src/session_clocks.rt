//! What is known of a session.
ghost use Rattle.std.specs.Prelude.{◌≡◌, ℕ, ◌∷◌, [], length};
ghost use Rattle.txn_data.specs.declared.actor.Actor.TheVariants.{Session};
ghost use Rattle.txn_types.specs.History.{History};
ghost use Rattle.txn_types.specs.Reads.{Read};
ghost use Rattle.trace_merge.specs.Seen.{greatest, Judged};
ghost use Rattle.trace_merge.specs.Tracks.{Tracks};

use crate::events::{begins, starts};
use crate::failed_read::{FailedRead, is_ahead};
use crate::origin::Origin;
use txn_types::Entry;

/// What is known of a session: its last Start, and the origins that a read of it can have.
#[derive(Clone, Copy, Debug)]
pub struct SessionClocks {
    /// The place of its last Start, from 0.
    pub start: u64,
    /// The origin of a read outside a transaction: the last Start.
    pub last: Origin,
    /// The origin of a read inside one: the Start of the begin that it was told of last.
    pub begun: Origin,
}

impl SessionClocks {
    /// Before anything was recorded.
    pub fn new() -> SessionClocks
        ensures { (i : ℕ) → Tracks i [] result }
    {
        let nowhere = Origin {
            before: 0,
            own: None,
        };
        SessionClocks {
            start: 0,
            last: nowhere,
            begun: nowhere,
        }
    }

    /// With one more entry of the session, which stands at this place after readings that are at most `most`.
    pub fn after(self, place: u64, most: u64, entry: &Entry) -> SessionClocks
        ensures { (i : ℕ) (h : History) → entry.now.actor ≡ Session i → place ≡ length h → most ≡ greatest h
            → Tracks i h self → Tracks i (entry.now ∷ h) result }
    {
        let at = if starts(&entry.event) {
            SessionClocks {
                start: place,
                last: Origin {
                    before: most,
                    own: None,
                },
                begun: self.begun,
            }
        } else if begins(&entry.event) {
            SessionClocks {
                start: self.start,
                last: self.last,
                begun: self.last,
            }
        } else {
            self
        };
        SessionClocks {
            start: at.start,
            last: at.last.with_reading(entry.reading),
            begun: at.begun.with_reading(entry.reading),
        }
    }

    /// The read that finishes now, where a reading before its origin is above its own plus the skew.
    pub fn failed(self, skew_us: u64) -> Option<FailedRead>
        ensures { (read : Read) → Tracks read.session read.before self → Judged skew_us read result }
    {
        let origin = if self.last.own.is_some() {
            self.last
        } else {
            self.begun
        };
        let own = origin.own.unwrap_or(0);
        if is_ahead(origin.before, own, skew_us) {
            Some(FailedRead {
                start: self.start,
                own,
            })
        } else {
            None
        }
    }
}
