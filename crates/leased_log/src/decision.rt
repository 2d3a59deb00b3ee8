//! What the table of an actor says of a request.
ghost use Rattle.std.specs.Prelude.{◌≡◌, Some, None};
ghost use Rattle.txn_data.specs.declared.reply.Reply.TheVariants.{Refused};
ghost use Rattle.safe_time.specs.ActorClock.{refusal_of};
ghost use Rattle.leased_log.specs.declared.decision.Decision.{Decision as Said};

use log_record::LogRecord;
use safe_time::{ClockRefusal, Step};
use txn_types::{Refusal, Reply};

/// What the table of an actor says of a request. Nothing is changed yet.
#[derive(Debug, Drop)]
pub struct Decision {
    /// The reply, where the log does not fail.
    pub reply: Reply,
    /// The step of the clock, where the action takes a time.
    pub step: Option<Step>,
    /// The record of the action's own, where it has one to log.
    pub own: Option<LogRecord>,
}

impl Decision {
    /// The reply is told, no time is taken and nothing is logged.
    pub fn tell(reply: Reply) -> Decision
        ensures { result ≡ (let said : Said = record { reply = reply; step = None; own = None } in said) }
    {
        Decision {
            reply,
            step: None,
            own: None,
        }
    }

    /// The request is refused.
    pub fn refuse(refusal: Refusal) -> Decision
        ensures { result ≡ (let said : Said = record { reply = Refused refusal; step = None; own = None } in said) }
    {
        Decision::tell(Reply::Refused(refusal))
    }

    /// The record is logged, and no time is taken.
    pub fn log(own: LogRecord, reply: Reply) -> Decision
        ensures { result ≡ (let said : Said = record { reply = reply; step = None; own = Some own } in said) }
    {
        Decision {
            reply,
            step: None,
            own: Some(own),
        }
    }
}

/// Why the clock gives no time, as a refusal.
pub fn refusal_of(refusal: ClockRefusal) -> Refusal
    ensures { result ≡ refusal_of refusal }
{
    match refusal {
        ClockRefusal::LeaseHeld { until } => Refusal::LeaseHeld { until },
        ClockRefusal::ClockRange { reading } => Refusal::ClockRange { reading },
        ClockRefusal::ClockFull { at } => Refusal::ClockFull { at },
    }
}
