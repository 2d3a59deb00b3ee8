//! What a status tablet decides of a request, and what it keeps of it in no log.
ghost use Rattle.std.specs.Prelude.{◌≡◌, ℕ, Option, Some, None, IsTrue};
ghost use Rattle.txn_data.specs.declared.reply.Reply.TheVariants.{Committed};
ghost use Rattle.status_tablet.specs.declared.status_decision.StatusDecision.{StatusDecision as Said};
ghost use Rattle.status_tablet.specs.declared.mark.Mark.TheVariants.{Nothing, Told};
ghost use Rattle.txn_data.specs.declared.request.Request.{Request};
ghost use Rattle.status_tablet.specs.Stands.{StatusState};
ghost use Rattle.status_tablet.specs.Decisions.{IsUpRequest, Says, is_spelled};

use crate::mark::Mark;
use hybrid_time::HybridTime;
use leased_log::Decision;
use txn_types::{Refusal, Reply, TxnId};

/// What a status tablet decides of a request, and what it keeps of it in no log.
#[derive(Debug, Drop)]
pub struct StatusDecision {
    pub decision: Decision,
    pub mark: Mark,
}

impl StatusDecision {
    /// Nothing is kept beside the log.
    pub fn plain(decision: Decision) -> StatusDecision
        ensures { result ≡ (let said : Said = record { decision = decision; mark = Nothing } in said) }
    {
        StatusDecision {
            decision,
            mark: Mark::Nothing,
        }
    }

    /// A request that is refused since the status tablet is down.
    pub fn down(since: u64) -> StatusDecision
        ensures spelled { IsTrue (is_spelled result.decision.own) }
        ensures says { (s : StatusState) → s.log.down ≡ Some since → (reading : Option ℕ) (asked : Request) → IsUpRequest reading asked → Says s reading asked result }
    {
        StatusDecision::plain(Decision::refuse(Refusal::Down { since }))
    }

    /// The owner is told of a commit that stands.
    pub fn told(txn: TxnId, at: HybridTime) -> StatusDecision
        ensures { result ≡ (let said : Said = record { decision = record { reply = Committed at; step = None; own = None }; mark = Told txn } in said) }
    {
        StatusDecision {
            decision: Decision::tell(Reply::Committed { at }),
            mark: Mark::Told(txn),
        }
    }
}
