//! How far a read has come.
ghost use Rattle.std.specs.Prelude.{◌≡◌, ℕ, Bool, List, false};
ghost use Rattle.txn_data.specs.declared.fate_of.FateOf.{FateOf};
ghost use Rattle.txn_data.specs.declared.found.Found.{Found};
ghost use Rattle.txn_types.specs.Program.{turn};
ghost use Rattle.txn_types.specs.ReadProgram.{Asked, Progress};
ghost use Rattle.read_plan.specs.Stage.{rest_at, stopped_by, is_asking, is_listing, takes_room};

use doc_path::Path;
use hybrid_time::HybridTime;
use txn_types::{Actor, Refusal, Reply};

/// How far a read has come.
#[derive(Debug, Drop)]
pub(crate) enum Stage {
    /// It waits for the next tablet to list transactions; for nothing where each was visited.
    Listing,
    /// It waits for the fate of the next transaction that this tablet listed; where each is known, for what the tablet
    /// collects. The local limit of the tablet is this.
    Asking { tablet: u32, limit: HybridTime },
    /// It met a newer version, and must not restart.
    Restarting { at: HybridTime, path: Path },
    /// An actor refused.
    Refused { by: Actor, why: Refusal },
}

/// An actor refused, or gave a reply that is none to the request.
pub(crate) fn stopped(by: Actor, reply: &Reply) -> Stage
    ensures rest { (a : Asked) (s : Progress) (first : Bool) (tablets : List ℕ) (others : List Found) (fates : List FateOf) → rest_at a s first tablets others fates result ≡ stopped_by by s reply.now }
    ensures room { (a : Asked) (s : Progress) (first : Bool) (tablets : List ℕ) (others : List Found) (fates : List FateOf) → takes_room (turn (rest_at a s first tablets others fates result)) ≡ false }
    ensures waiting { is_asking result ≡ false }
    ensures rounds { is_listing result ≡ false }
{
    match reply {
        Reply::Refused(why) => Stage::Refused { by, why: *why },
        _ => Stage::Refused {
            by,
            why: Refusal::Memory,
        },
    }
}
