//! What a machine made of a request, as an entry.
ghost use Rattle.std.specs.Prelude.{◌≡◌, Some, IfOk, OnErr};
ghost use Rattle.txn_data.specs.declared.refusal.Refusal.TheVariants as refusal;
ghost use Rattle.txn_data.specs.declared.reply.Reply.TheVariants as reply;
ghost use Rattle.txn_types.specs.Machine.{entry_of};

use crate::answered::Answered;
use docdb_base::Memory;
use std::alloc::AllocError;
use txn_types::{Actor, Entry, Event, Refusal, Reply, Request, Served};

/// What actor `by` answered a request of `from`, which it served with this reading. It takes no memory, and passes on that
/// memory ran out.
pub(crate) fn answered(
    by: Actor,
    from: Actor,
    request: Request,
    reading: u64,
    served: Served,
) -> Result<Answered, Memory>
    requires { served.copy ≡ served.reply }
    ensures entry { IfOk result (λ a. a.entry ≡ entry_of by from request (Some reading) served) }
    ensures reply { IfOk result (λ a. a.reply ≡ served.reply) }
    ensures kept { IfOk result (λ a. served.reply ≡ reply.Refused refusal.Memory → ⊥) }
    ensures memory { OnErr result (served.reply ≡ reply.Refused refusal.Memory) }
{
    let Served {
        reply,
        copy,
        time,
        append,
    } = served;
    if matches!(reply, Reply::Refused(Refusal::Memory)) {
        return Err(AllocError);
    }
    let reading = if request.takes_time() {
        Some(reading)
    } else {
        None
    };
    let event = match copy {
        Reply::Restarted { kept } => Event::Restarted { from, kept },
        copy => Event::Serve {
            from,
            request,
            reply: copy,
            time,
            append,
        },
    };
    Ok(Answered {
        reply,
        entry: Entry {
            actor: by,
            reading,
            event,
        },
    })
}
