//! How far a step of a transaction has come.
ghost use Rattle.std.specs.Prelude.{◌≡◌, ℕ, List, [], true, false};
ghost use Rattle.txn_data.specs.declared.fate_of.FateOf.{FateOf};
ghost use Rattle.txn_data.specs.declared.found.Found.{Found};
ghost use Rattle.txn_types.specs.Program.{turn, heard, refusal_told};
ghost use Rattle.txn_types.specs.TxnProgram.{txn_program};
ghost use Rattle.txn_plan.specs.Stage.{rest_at, writes, fits, resolving, refused_step, stopped_by, takes_room};

use hybrid_time::HybridTime;
use txn_types::{Actor, Meta, Refusal, Reply, TxnId, TxnStep};

/// How far a step of a transaction has come.
#[derive(Debug, Drop)]
pub(crate) enum Stage {
    /// It waits for the reply to its first request.
    Asking,
    /// It waits for the fate of the next transaction that was listed; where each is known, for the reply to its write.
    Resolving,
    /// Its write was refused, and it waits for the reply to the Abort.
    Aborting { by: Actor, why: Refusal },
    /// The transaction is begun.
    Began { at: HybridTime },
    /// The write was accepted.
    Written { at: HybridTime },
    /// The transaction, or the single write, is committed.
    Committed { at: HybridTime },
    /// The transaction is over, and wrote nothing.
    Ended,
    /// Another transaction had aborted this one.
    Aborted { by: TxnId },
    /// An actor refused.
    Refused { by: Actor, why: Refusal },
}

/// After the reply to a Begin at this read time.
pub(crate) fn after_begin(meta: &Meta, r: HybridTime, reply: &Reply) -> Stage
    ensures rest { (others : List Found) (fates : List FateOf) → rest_at (TxnStep.Begin meta.now r) others fates result ≡ heard (txn_program (TxnStep.Begin meta.now r)) reply.now }
    ensures room { (step : TxnStep) (others : List Found) (fates : List FateOf) → takes_room (turn (rest_at step others fates result)) ≡ false }
    ensures fits { (step : TxnStep) → fits result step ≡ true }
{
    match reply {
        Reply::Begun => Stage::Began { at: r },
        _ => stopped(Actor::Status(meta.status), reply),
    }
}

/// After the reply to a Commit.
pub(crate) fn after_commit(meta: &Meta, reply: &Reply) -> Stage
    ensures rest { (floor : ℕ) (tablets : List ℕ) (others : List Found) (fates : List FateOf) → rest_at (TxnStep.Commit meta.now floor tablets) others fates result ≡ heard (txn_program (TxnStep.Commit meta.now floor tablets)) reply.now }
    ensures room { (step : TxnStep) (others : List Found) (fates : List FateOf) → takes_room (turn (rest_at step others fates result)) ≡ false }
    ensures fits { (step : TxnStep) → fits result step ≡ true }
{
    match reply {
        Reply::Committed { at } => Stage::Committed { at: *at },
        Reply::AbortedBy { by } => Stage::Aborted { by: *by },
        Reply::Gone => Stage::Ended,
        _ => stopped(Actor::Status(meta.status), reply),
    }
}

/// After the reply to an Abort that was the whole step.
pub(crate) fn after_abort(meta: &Meta, reply: &Reply) -> Stage
    ensures rest { (others : List Found) (fates : List FateOf) → rest_at (TxnStep.Abort meta.now) others fates result ≡ heard (txn_program (TxnStep.Abort meta.now)) reply.now }
    ensures room { (step : TxnStep) (others : List Found) (fates : List FateOf) → takes_room (turn (rest_at step others fates result)) ≡ false }
    ensures fits { (step : TxnStep) → fits result step ≡ true }
{
    match reply {
        Reply::Ended => Stage::Ended,
        Reply::Committed { at } => Stage::Committed { at: *at },
        _ => stopped(Actor::Status(meta.status), reply),
    }
}

/// An actor refused, or gave a reply that is none to the request, and nothing has to be aborted.
pub(crate) fn stopped(by: Actor, reply: &Reply) -> Stage
    ensures rest { (step : TxnStep) (others : List Found) (fates : List FateOf) → rest_at step others fates result ≡ stopped_by by reply.now }
    ensures room { (step : TxnStep) (others : List Found) (fates : List FateOf) → takes_room (turn (rest_at step others fates result)) ≡ false }
    ensures fits { (step : TxnStep) → fits result step ≡ true }
{
    match reply {
        Reply::Refused(why) => Stage::Refused { by, why: *why },
        _ => Stage::Refused {
            by,
            why: Refusal::Memory,
        },
    }
}

/// After the reply to a Write or a Single.
#[tactic(auto, unfolding(txn_types::specs::TxnProgram::resolve_all))]
pub(crate) fn after_write(step: &TxnStep, reply: &Reply) -> Stage
    requires { writes step.now ≡ true }
    ensures rest { (others : List Found) (fates : List FateOf) → rest_at step.now others fates result ≡ heard (resolving step.now [] fates) reply.now }
    ensures room { (others : List Found) (fates : List FateOf) → takes_room (turn (rest_at step.now others fates result)) ≡ false }
{
    match step {
        TxnStep::Write { place, .. } => match reply {
            Reply::Written { at } => Stage::Written { at: *at },
            Reply::Refused(why) => after_refusal(step, Actor::Tablet(place.tablet), why),
            _ => stopped(Actor::Tablet(place.tablet), reply),
        },
        TxnStep::Single { place, .. } => match reply {
            Reply::SingleDone { at } => Stage::Committed { at: *at },
            _ => stopped(Actor::Tablet(place.tablet), reply),
        },
        _ => unreachable!(),
    }
}

/// A step that writes was refused: Conflict, Overlap and a fault of a log end the transaction of a write, and a single
/// write has none to end.
pub(crate) fn after_refusal(step: &TxnStep, by: Actor, why: &Refusal) -> Stage
    ensures rest { (others : List Found) (fates : List FateOf) → rest_at step.now others fates result ≡ refused_step step.now (refusal_told by why.now) }
    ensures room { (others : List Found) (fates : List FateOf) → takes_room (turn (rest_at step.now others fates result)) ≡ false }
{
    match (step, why) {
        (
            TxnStep::Write { .. },
            Refusal::Conflict { .. } | Refusal::Overlap { .. } | Refusal::LogFault,
        ) => Stage::Aborting { by, why: *why },
        _ => Stage::Refused { by, why: *why },
    }
}
