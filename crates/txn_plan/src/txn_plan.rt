//! A step of a transaction, or a single write.
ghost use Rattle.std.specs.Prelude.{◌≡◌, ◌≤◌, ◌<◌, ◌+◌, ◌^◌, true, false, length, [], ◌∷◌, drop, IsOk, IfOk, OnOk, OnErr, IsSome, IfSome, IfNone};
ghost use Rattle.txn_types.specs.Program.{heard, turn};
ghost use Rattle.txn_types.specs.TxnProgram.{txn_program};
ghost use Rattle.txn_types.specs.Run.{is_settling};
ghost use Rattle.txn_plan.specs.Stage.{meta_of, writes, fits, resolving, listed, takes_room};

use crate::stage::{
    Stage, after_abort, after_begin, after_commit, after_refusal, after_write, stopped,
};
use crate::txn_turn::TxnTurn;
use docdb_base::{Memory, Seq, TryCopy};
use std::alloc::Global;
use txn_types::{
    Actor, Fate, FateOf, Fates, Found, Founds, Meta, Refusal, Reply, Request, Told, ToldRefusal,
    TxnStep, told_refusal,
};

/// A step of a transaction, or a single write. Contracts see the program that is left of it, `rest`.
#[derive(Debug, Drop)]
pub struct TxnPlan {
    alloc: Global,
    step: TxnStep,
    stage: Stage,
    /// The other transactions with a conflicting intent, how many of them were resolved, and what became of these.
    found: Founds,
    resolved: usize,
    fates: Fates,
    ghost within: { resolved ≤ length found },
    ghost writing: { fits stage step ≡ true },
}

#[tactic(auto, unfolding(crate::specs::Rest::rest))]
impl TxnPlan {
    ghost use Rattle.txn_plan.specs.Rest.{rest, others, turn_of};

    /// A plan for this step. It has asked nothing so far. It takes no memory.
    pub fn start(alloc: Global, step: TxnStep) -> Result<TxnPlan, Memory>
        ensures program { IfOk result (λ plan. rest plan ≡ txn_program step) }
        ensures room { IsOk result }
    {
        Ok(TxnPlan {
            alloc,
            step,
            stage: Stage::Asking,
            found: Seq::new(alloc),
            resolved: 0,
            fates: Seq::new(alloc),
        })
    }

    /// What it asks next, or what it is told. It changes nothing. It may take memory where a step that writes asks anything
    /// but its Abort, and for a Commit.
    pub fn next(&mut self) -> Result<TxnTurn, Memory>
        ensures turn { IfOk result (λ next. turn_of next ≡ turn (rest self.old)) }
        ensures same { self.new ≡ self.old }
        ensures room { OnErr result (takes_room (turn (rest self.old)) ≡ true) }
    {
        self.turn()
    }

    /// Goes on with the reply to what it asked. It may take memory after the same requests, but for no refusal, nor for the
    /// reply that ends the step; if memory runs out, it is as before. Once it is told something, a reply changes nothing.
    pub fn hear(&mut self, reply: &Reply) -> Result<(), Memory>
        ensures ok { OnOk result (rest self.new ≡ heard (rest self.old) reply.now) }
        ensures memory { OnErr result (self.new ≡ self.old) }
        ensures room { OnErr result (takes_room (turn (rest self.old)) ≡ true) }
        ensures unsettled { OnErr result (is_settling reply.now ≡ false) }

        // Nothing after such a reply takes memory.
        ensures settled { OnOk result (is_settling reply.now ≡ true → takes_room (turn (rest self.new)) ≡ false) }
    {
        match &self.stage {
            Stage::Asking => self.hear_first(reply),
            Stage::Resolving => self.hear_resolving(reply),
            Stage::Aborting { by, why } => {
                self.stage = Stage::Refused { by: *by, why: *why };
                Ok(())
            }
            _ => Ok(()),
        }
    }

    fn turn(&self) -> Result<TxnTurn, Memory>
        ensures turn { IfOk result (λ next. turn_of next ≡ turn (rest self.now)) }
        ensures room { OnErr result (takes_room (turn (rest self.now)) ≡ true) }
    {
        match &self.stage {
            Stage::Asking => self.first_request(),
            Stage::Resolving => self.next_request(),
            Stage::Aborting { .. } => {
                let meta = self.meta();
                Ok(ask_status(&meta, Request::Abort { txn: meta.txn }))
            }
            Stage::Began { at } => Ok(TxnTurn::Done(Told::Began {
                txn: self.meta().txn,
                at: *at,
            })),
            Stage::Written { at } => Ok(TxnTurn::Done(Told::Written { at: *at })),
            Stage::Committed { at } => Ok(TxnTurn::Done(Told::Committed {
                txn: self.meta().txn,
                at: *at,
            })),
            Stage::Ended => Ok(TxnTurn::Done(Told::Ended {
                txn: self.meta().txn,
            })),
            Stage::Aborted { by } => {
                let why = ToldRefusal::Aborted { by: *by };
                Ok(TxnTurn::Done(Told::Refused(why)))
            }
            Stage::Refused { by, why } => {
                Ok(TxnTurn::Done(Told::Refused(told_refusal(*by, *why))))
            }
        }
    }

    fn meta(&self) -> Meta
        ensures { result ≡ meta_of self.now.step }
    {
        match &self.step {
            TxnStep::Begin { meta, .. }
            | TxnStep::Write { meta, .. }
            | TxnStep::Single { meta, .. }
            | TxnStep::Commit { meta, .. }
            | TxnStep::Abort { meta } => *meta,
        }
    }

    fn first_request(&self) -> Result<TxnTurn, Memory>
        ensures turn { IfOk result (λ next. turn_of next ≡ turn (txn_program self.now.step)) }
        ensures room { OnErr result (takes_room (turn (txn_program self.now.step)) ≡ true) }
    {
        match &self.step {
            TxnStep::Begin { meta, .. } => Ok(ask_status(
                meta,
                Request::Begin {
                    txn: meta.txn,
                    isolation: meta.isolation,
                    priority: meta.priority,
                },
            )),
            TxnStep::Write { meta, place, .. } | TxnStep::Single { meta, place, .. } => {
                Ok(TxnTurn::Ask {
                    to: Actor::Tablet(place.tablet),
                    request: Request::ListWrite {
                        txn: meta.txn,
                        path: place.path.try_copy(self.alloc)?,
                    },
                })
            }
            TxnStep::Commit {
                meta,
                floor,
                tablets,
            } => Ok(ask_status(
                meta,
                Request::Commit {
                    txn: meta.txn,
                    floor: *floor,
                    tablets: tablets.try_copy(self.alloc)?,
                },
            )),
            TxnStep::Abort { meta } => Ok(ask_status(meta, Request::Abort { txn: meta.txn })),
        }
    }

    // The first transaction that is not resolved yet.
    fn next_found(&self) -> Option<Found>
        ensures some { IfSome result (λ found. others self.now ≡ found ∷ drop (self.now.resolved + 1) self.now.found) }
        ensures within { IsSome result → self.now.resolved < length self.now.found }
        ensures none { IfNone result (others self.now ≡ []) }
        ensures few { length self.now.found < 2 ^ 64 }
    {
        self.found.items().get(self.resolved).copied()
    }

    // Resolves the next transaction, or where each was, asks for the write.
    #[tactic(auto, unfolding(txn_types::specs::TxnProgram::resolve_all))]
    fn next_request(&self) -> Result<TxnTurn, Memory>
        requires { writes self.now.step ≡ true }
        ensures turn { IfOk result (λ next. turn_of next ≡ turn (resolving self.now.step (others self.now) self.now.fates)) }
        ensures room { OnErr result (takes_room (turn (resolving self.now.step (others self.now) self.now.fates)) ≡ true) }
    {
        let Some(found) = self.next_found() else {
            return self.write_request();
        };
        match &self.step {
            TxnStep::Write { meta, .. } | TxnStep::Single { meta, .. } => Ok(TxnTurn::Ask {
                to: Actor::Status(found.status),
                request: Request::Resolve {
                    txn: found.txn,
                    by: meta.txn,
                    priority: meta.priority,
                },
            }),
            _ => unreachable!(),
        }
    }

    #[tactic(auto, unfolding(txn_types::specs::TxnProgram::resolve_all))]
    fn write_request(&self) -> Result<TxnTurn, Memory>
        requires { writes self.now.step ≡ true }
        ensures turn { IfOk result (λ next. turn_of next ≡ turn (resolving self.now.step [] self.now.fates)) }
        ensures room { OnErr result (takes_room (turn (resolving self.now.step [] self.now.fates)) ≡ true) }
    {
        match &self.step {
            TxnStep::Write {
                meta,
                number,
                place,
                op,
                read,
                seen,
            } => Ok(TxnTurn::Ask {
                to: Actor::Tablet(place.tablet),
                request: Request::Write {
                    meta: *meta,
                    number: *number,
                    path: place.path.try_copy(self.alloc)?,
                    op: op.try_copy(self.alloc)?,
                    read: *read,
                    seen: *seen,
                    fates: self.fates.try_copy(self.alloc)?,
                },
            }),
            TxnStep::Single {
                meta,
                place,
                op,
                seen,
            } => Ok(TxnTurn::Ask {
                to: Actor::Tablet(place.tablet),
                request: Request::Single {
                    txn: meta.txn,
                    path: place.path.try_copy(self.alloc)?,
                    op: op.try_copy(self.alloc)?,
                    seen: *seen,
                    fates: self.fates.try_copy(self.alloc)?,
                },
            }),
            _ => unreachable!(),
        }
    }

    fn hear_first(&mut self, reply: &Reply) -> Result<(), Memory>
        requires { self.old.stage ≡ Stage.Asking }
        ensures ok { OnOk result (rest self.new ≡ heard (txn_program self.old.step) reply.now) }
        ensures memory { OnErr result (self.new ≡ self.old) }
        ensures room { OnErr result (takes_room (turn (txn_program self.old.step)) ≡ true) }
        ensures unsettled { OnErr result (is_settling reply.now ≡ false) }
        ensures settled { OnOk result (is_settling reply.now ≡ true → takes_room (turn (rest self.new)) ≡ false) }
    {
        match &self.step {
            TxnStep::Begin { meta, r } => {
                self.stage = after_begin(meta, *r, reply);
                Ok(())
            }
            TxnStep::Write { place, .. } | TxnStep::Single { place, .. } => {
                let tablet = Actor::Tablet(place.tablet);
                self.hear_others(tablet, reply)
            }
            TxnStep::Commit { meta, .. } => {
                self.stage = after_commit(meta, reply);
                Ok(())
            }
            TxnStep::Abort { meta } => {
                self.stage = after_abort(meta, reply);
                Ok(())
            }
        }
    }

    #[tactic(auto, unfolding(crate::specs::Rest::rest, txn_types::specs::TxnProgram::resolve_all))]
    fn hear_others(&mut self, tablet: Actor, reply: &Reply) -> Result<(), Memory>
        requires { writes self.old.step ≡ true }
        ensures ok { OnOk result (rest self.new ≡ listed self.old.step tablet reply.now) }
        ensures memory { OnErr result (self.new ≡ self.old) }
        ensures unsettled { OnErr result (is_settling reply.now ≡ false) }
        ensures settled { OnOk result (is_settling reply.now ≡ true → takes_room (turn (rest self.new)) ≡ false) }
    {
        match reply {
            Reply::Others(found) => {
                self.found = found.try_copy(self.alloc)?;
                self.resolved = 0;
                self.fates = Seq::new(self.alloc);
                self.stage = Stage::Resolving;
            }
            Reply::Refused(why) => self.stage = after_refusal(&self.step, tablet, why),
            _ => self.stage = stopped(tablet, reply),
        }
        Ok(())
    }

    #[tactic(auto, unfolding(crate::specs::Rest::rest, txn_types::specs::TxnProgram::resolve_all))]
    fn hear_resolving(&mut self, reply: &Reply) -> Result<(), Memory>
        requires stage { self.old.stage ≡ Stage.Resolving }
        requires writing { writes self.old.step ≡ true }
        ensures ok { OnOk result (rest self.new ≡ heard (resolving self.old.step (others self.old) self.old.fates) reply.now) }
        ensures memory { OnErr result (self.new ≡ self.old) }
        ensures room { OnErr result (takes_room (turn (resolving self.old.step (others self.old) self.old.fates)) ≡ true) }
        ensures unsettled { OnErr result (is_settling reply.now ≡ false) }
        ensures settled { OnOk result (is_settling reply.now ≡ true → takes_room (turn (rest self.new)) ≡ false) }
    {
        match self.next_found() {
            Some(found) => self.hear_fate(found, reply),
            None => {
                self.stage = after_write(&self.step, reply);
                Ok(())
            }
        }
    }

    #[tactic(auto, unfolding(crate::specs::Rest::rest, txn_types::specs::TxnProgram::resolve_all))]
    fn hear_fate(&mut self, found: Found, reply: &Reply) -> Result<(), Memory>
        requires stage { self.old.stage ≡ Stage.Resolving }
        requires writing { writes self.old.step ≡ true }
        requires next { others self.old ≡ found ∷ drop (self.old.resolved + 1) self.old.found }
        requires within { self.old.resolved < length self.old.found }
        requires few { length self.old.found < 2 ^ 64 }
        ensures ok { OnOk result (rest self.new ≡ heard (resolving self.old.step (others self.old) self.old.fates) reply.now) }
        ensures memory { OnErr result (self.new ≡ self.old) }
        ensures room { OnErr result (takes_room (turn (resolving self.old.step (others self.old) self.old.fates)) ≡ true) }
        ensures unsettled { OnErr result (is_settling reply.now ≡ false) }
        ensures settled { OnOk result (is_settling reply.now ≡ true → takes_room (turn (rest self.new)) ≡ false) }
    {
        let status = Actor::Status(found.status);
        match reply {
            Reply::FateIs(Fate::Pending) => {
                let why = Refusal::Conflict { other: found.txn };
                self.stage = after_refusal(&self.step, status, &why);
            }
            Reply::FateIs(fate) => {
                self.fates.push(FateOf {
                    txn: found.txn,
                    fate: *fate,
                })?;
                self.resolved += 1;
            }
            Reply::Refused(why) => self.stage = after_refusal(&self.step, status, why),
            _ => self.stage = stopped(status, reply),
        }
        Ok(())
    }
}

fn ask_status(meta: &Meta, request: Request) -> TxnTurn
    ensures { result ≡ TxnTurn.Ask (Actor.Status meta.now.status) request }
{
    TxnTurn::Ask {
        to: Actor::Status(meta.status),
        request,
    }
}
