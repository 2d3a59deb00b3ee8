//! What an actor tells that its table does not decide.
ghost use Rattle.std.specs.Prelude.{◌≡◌};
ghost use Rattle.leased_log.specs.Replies.{out_of_memory, restarted_with, not_loaded};

use txn_types::{Append, Refusal, Reply, Served};

/// The reply if memory runs out.
pub fn out_of_memory() -> Served
    ensures { result ≡ out_of_memory }
{
    Served {
        reply: Reply::Refused(Refusal::Memory),
        copy: Reply::Refused(Refusal::Memory),
        time: None,
        append: Append::Nothing,
    }
}

/// The reply of a restart.
pub fn restarted(kept: bool) -> Served
    ensures { result ≡ restarted_with kept }
{
    Served {
        reply: Reply::Restarted { kept },
        copy: Reply::Restarted { kept },
        time: None,
        append: Append::Nothing,
    }
}

/// The reply of a load that failed.
pub fn log_fault() -> Served
    ensures { result ≡ not_loaded }
{
    Served {
        reply: Reply::Refused(Refusal::LogFault),
        copy: Reply::Refused(Refusal::LogFault),
        time: None,
        append: Append::Nothing,
    }
}
