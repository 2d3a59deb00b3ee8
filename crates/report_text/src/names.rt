//! Ids, times and actors as text.
ghost use Rattle.std.specs.Prelude.{◌≡◌, IfOk, string_bytes};
ghost use Rattle.std.specs.Int.{to_be_bytes, w128};
ghost use Rattle.report_text.specs.Answer.{time_text, actor_text};

use docdb_base::Memory;
use hybrid_time::HybridTime;
use std::alloc::Global;
use txn_types::{Actor, TxnId};
use uuid::Uuid;
use uuid::fmt::Hyphenated;

/// The id of a transaction, to be shown as a hyphenated UUID in lower case.
pub(crate) fn id_of(txn: TxnId) -> Hyphenated
    ensures { result ≡ to_be_bytes w128 txn }
{
    Uuid::from_u128(txn.number).hyphenated()
}

pub(crate) fn time_text(alloc: Global, at: HybridTime) -> Result<String, Memory>
    ensures { IfOk result (λ text. string_bytes text ≡ time_text at) }
{
    let (micros, logical) = (at.micros(), at.logical());
    format!(in alloc; "{micros}.{logical}")
}

pub(crate) fn actor_text(alloc: Global, actor: Actor) -> Result<String, Memory>
    ensures { IfOk result (λ text. string_bytes text ≡ actor_text actor) }
{
    match actor {
        Actor::Tablet(number) => format!(in alloc; "t{number}"),
        Actor::Status(number) => format!(in alloc; "s{number}"),
        Actor::Session(number) => format!(in alloc; "{number}"),
        Actor::Applier(number) => format!(in alloc; "a{number}"),
    }
}
