//! One pass over a tablet.
ghost use Rattle.std.specs.Prelude.{◌≡◌, ◌≤◌, ◌<◌, ◌+◌, ◌^◌, true, false, length, [], ◌∷◌, drop, IsOk, IfOk, OnOk, OnErr, IsSome, IfSome, IfNone};

use crate::pass_turn::PassTurn;
use crate::stage::{Stage, after_applied, after_apply, after_clean, stopped};
use docdb_base::{Memory, Seq, TryCopy};
use hybrid_time::HybridTime;
use std::alloc::Global;
use txn_types::{Actor, Fate, Found, Founds, Reply, Request, Told, told_refusal};

/// One pass over the provisional records of a tablet: it asks what became of each transaction that has some, applies what
/// committed, and cleans what was aborted. Contracts see the program that is left of it, `rest`.
#[derive(Debug, Drop)]
pub struct Pass {
    alloc: Global,
    tablet: u32,
    stage: Stage,
    /// The transactions that were listed, and how many of them were seen to.
    found: Founds,
    seen: usize,
    applied: u64,
    cleaned: u64,
    left: u64,
    ghost within: { seen ≤ length found },
    ghost counted: { applied + cleaned + left ≤ seen },
}

#[tactic(auto, unfolding(crate::specs::Rest::rest))]
impl Pass {
    ghost use Rattle.txn_types.specs.PassProgram.{pass_program, pass_over};
    ghost use Rattle.txn_types.specs.Program.{heard, turn};
    ghost use Rattle.txn_types.specs.Run.{is_settling};
    ghost use Rattle.intent_applier.specs.Rest.{rest, counts_of, others, turn_of};
    ghost use Rattle.intent_applier.specs.Stage.{asks};

    /// A pass over this tablet. It has asked nothing so far. It takes no memory.
    pub fn start(alloc: Global, tablet: u32) -> Result<Pass, Memory>
        ensures program { IfOk result (λ pass. rest pass ≡ pass_program tablet) }
        ensures room { IsOk result }
    {
        Ok(Pass {
            alloc,
            tablet,
            stage: Stage::Listing,
            found: Seq::new(alloc),
            seen: 0,
            applied: 0,
            cleaned: 0,
            left: 0,
        })
    }

    /// What it asks next, or what it is told. It takes no memory.
    pub fn next(&mut self) -> Result<PassTurn, Memory>
        ensures turn { IfOk result (λ next. turn_of next ≡ turn (rest self.old)) }
        ensures same { self.new ≡ self.old }
        ensures room { IsOk result }
    {
        Ok(self.turn())
    }

    /// Goes on with the reply to what it asked. It may take memory as long as it asks, but for no refusal; after want of
    /// memory it is as before. Once it is told something, a reply changes nothing.
    pub fn hear(&mut self, reply: &Reply) -> Result<(), Memory>
        ensures ok { OnOk result (rest self.new ≡ heard (rest self.old) reply.now) }
        ensures memory { OnErr result (self.new ≡ self.old) }
        ensures room { OnErr result (asks (turn (rest self.old)) ≡ true) }
        ensures unsettled { OnErr result (is_settling reply.now ≡ false) }

        // It asks no more after a refusal.
        ensures settled { OnOk result (is_settling reply.now ≡ true → asks (turn (rest self.new)) ≡ false) }
    {
        match &self.stage {
            Stage::Listing => self.hear_list(reply),
            Stage::Asking => {
                self.hear_fate(reply);
                Ok(())
            }
            Stage::Applying { found, .. } => {
                self.stage = after_apply(self.tablet, *found, reply);
                Ok(())
            }
            Stage::Noting { found } => {
                self.stage = after_applied(*found, reply);
                Ok(())
            }
            Stage::Cleaning { .. } => {
                self.stage = after_clean(self.tablet, reply);
                Ok(())
            }
            Stage::Refused { .. } => Ok(()),
        }
    }

    fn turn(&self) -> PassTurn
        ensures { turn_of result ≡ turn (rest self.now) }
    {
        let tablet = Actor::Tablet(self.tablet);
        match &self.stage {
            Stage::Listing => PassTurn::Ask {
                to: tablet,
                request: Request::ListIntents,
            },
            Stage::Asking => self.next_fate(),
            Stage::Applying { found, at } => PassTurn::Ask {
                to: tablet,
                request: Request::Apply {
                    txn: found.txn,
                    at: *at,
                },
            },
            Stage::Noting { found } => PassTurn::Ask {
                to: Actor::Status(found.status),
                request: Request::Applied {
                    txn: found.txn,
                    tablet: self.tablet,
                },
            },
            Stage::Cleaning { found } => PassTurn::Ask {
                to: tablet,
                request: Request::Clean { txn: found.txn },
            },
            Stage::Refused { by, why } => PassTurn::Done(Told::Refused(told_refusal(*by, *why))),
        }
    }

    // Asks the fate of the next transaction, where there is one.
    #[tactic(auto, unfolding(txn_types::specs::PassProgram::pass_over))]
    fn next_fate(&self) -> PassTurn
        ensures { turn_of result ≡ turn (pass_over self.now.tablet (counts_of self.now) (others self.now)) }
    {
        match self.next_found() {
            Some(found) => PassTurn::Ask {
                to: Actor::Status(found.status),
                request: Request::AskFate {
                    txn: found.txn,
                    t: HybridTime::ZERO,
                },
            },
            None => PassTurn::Done(Told::Passed {
                applied: self.applied,
                cleaned: self.cleaned,
                left: self.left,
            }),
        }
    }

    // The first transaction that is not seen to yet.
    fn next_found(&self) -> Option<Found>
        ensures some { IfSome result (λ found. others self.now ≡ found ∷ drop (self.now.seen + 1) self.now.found) }
        ensures within { IsSome result → self.now.seen < length self.now.found }
        ensures none { IfNone result (others self.now ≡ []) }
        ensures few { length self.now.found < 2 ^ 64 }
    {
        self.found.items().get(self.seen).copied()
    }

    fn hear_list(&mut self, reply: &Reply) -> Result<(), Memory>
        requires { self.old.stage ≡ Stage.Listing }
        ensures ok { OnOk result (rest self.new ≡ heard (pass_program self.old.tablet) reply.now) }
        ensures memory { OnErr result (self.new ≡ self.old) }
        ensures unsettled { OnErr result (is_settling reply.now ≡ false) }
        ensures settled { OnOk result (is_settling reply.now ≡ true → asks (turn (rest self.new)) ≡ false) }
    {
        match reply {
            Reply::Intents(found) => {
                self.found = found.try_copy(self.alloc)?;
                self.seen = 0;
                self.applied = 0;
                self.cleaned = 0;
                self.left = 0;
                self.stage = Stage::Asking;
            }
            _ => self.stage = stopped(Actor::Tablet(self.tablet), reply),
        }
        Ok(())
    }

    #[tactic(auto, unfolding(crate::specs::Rest::rest, txn_types::specs::PassProgram::pass_over))]
    fn hear_fate(&mut self, reply: &Reply)
        requires { self.old.stage ≡ Stage.Asking }
        ensures rest { rest self.new ≡ heard (pass_over self.old.tablet (counts_of self.old) (others self.old)) reply.now }
        ensures settled { is_settling reply.now ≡ true → asks (turn (rest self.new)) ≡ false }
    {
        let Some(found) = self.next_found() else {
            return;
        };
        let Reply::FateIs(fate) = reply else {
            self.stage = stopped(Actor::Status(found.status), reply);
            return;
        };
        self.seen += 1;
        match fate {
            Fate::Pending => self.left += 1,
            Fate::Committed { at } => {
                self.applied += 1;
                self.stage = Stage::Applying { found, at: *at };
            }
            Fate::Aborted | Fate::Absent => {
                self.cleaned += 1;
                self.stage = Stage::Cleaning { found };
            }
        }
    }
}
