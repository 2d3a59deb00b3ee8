//! What a pass waits for.
ghost use Rattle.std.specs.Prelude.{◌≡◌, ℕ, List, true, false};
ghost use Rattle.txn_data.specs.declared.found.Found.{Found};
ghost use Rattle.txn_types.specs.Program.{heard, turn};
ghost use Rattle.txn_types.specs.PassProgram.{Counts, apply_then, clean_then, pass_over};
ghost use Rattle.txn_types.specs.Run.{is_settling};
ghost use Rattle.intent_applier.specs.Stage.{rest_at, noting, refused_by, asks};

use hybrid_time::HybridTime;
use txn_types::{Actor, Found, Refusal, Reply};

/// What a pass waits for.
#[derive(Debug, Drop)]
pub(crate) enum Stage {
    /// For the transactions that have provisional records.
    Listing,
    /// For the fate of the next transaction that was listed; for nothing where each was seen to.
    Asking,
    /// For the tablet to apply this transaction, which committed at this time.
    Applying { found: Found, at: HybridTime },
    /// For the status tablet to note that it was applied.
    Noting { found: Found },
    /// For the tablet to clean this transaction.
    Cleaning { found: Found },
    /// For nothing: an actor refused.
    Refused { by: Actor, why: Refusal },
}

/// After the reply of the tablet to an Apply.
pub(crate) fn after_apply(tablet: u32, found: Found, reply: &Reply) -> Stage
    ensures rest { (n : Counts) (others : List Found) (at : ℕ) → rest_at tablet n others result ≡ heard (apply_then tablet found at (pass_over tablet n others)) reply.now }
    ensures settled { (n : Counts) (others : List Found) → is_settling reply.now ≡ true → asks (turn (rest_at tablet n others result)) ≡ false }
{
    match reply {
        Reply::AppliedHere => Stage::Noting { found },
        _ => stopped(Actor::Tablet(tablet), reply),
    }
}

/// After the reply of the status tablet to an Applied.
pub(crate) fn after_applied(found: Found, reply: &Reply) -> Stage
    ensures rest { (k : ℕ) (n : Counts) (others : List Found) → rest_at k n others result ≡ heard (noting k found (pass_over k n others)) reply.now }
    ensures settled { (k : ℕ) (n : Counts) (others : List Found) → is_settling reply.now ≡ true → asks (turn (rest_at k n others result)) ≡ false }
{
    match reply {
        Reply::Noted => Stage::Asking,
        _ => stopped(Actor::Status(found.status), reply),
    }
}

/// After the reply of the tablet to a Clean.
pub(crate) fn after_clean(tablet: u32, reply: &Reply) -> Stage
    ensures rest { (n : Counts) (found : Found) (others : List Found) → rest_at tablet n others result ≡ heard (clean_then tablet found (pass_over tablet n others)) reply.now }
    ensures settled { (n : Counts) (others : List Found) → is_settling reply.now ≡ true → asks (turn (rest_at tablet n others result)) ≡ false }
{
    match reply {
        Reply::Cleaned => Stage::Asking,
        _ => stopped(Actor::Tablet(tablet), reply),
    }
}

/// An actor refused, or gave a reply that is none to the request.
pub(crate) fn stopped(by: Actor, reply: &Reply) -> Stage
    ensures rest { (k : ℕ) (n : Counts) (others : List Found) → rest_at k n others result ≡ refused_by by reply.now }
    ensures settled { (k : ℕ) (n : Counts) (others : List Found) → asks (turn (rest_at k n others result)) ≡ false }
{
    match reply {
        Reply::Refused(why) => Stage::Refused { by, why: *why },
        _ => Stage::Refused {
            by,
            why: Refusal::Memory,
        },
    }
}
