//! A status tablet by hand.
ghost use Rattle.std.specs.Prelude.{◌≡◌, ◌≤◌, true, []};
ghost use Rattle.txn_types.specs.Machine.{FewTablets};
ghost use Rattle.status_tablet.specs.Decisions.{IsStatusRequest};

use crate::unanswered::Unanswered;
use docdb_outside::MemLog;
use status_tablet::StatusTablet;
use std::alloc::Global;
use txn_types::{Actor, Machine, Request, Served};

/// The status tablet of this program.
pub type Status = StatusTablet<MemLog>;

/// A status tablet on this empty log.
pub fn open_status(alloc: Global, number: u32, lease_us: u64, log: MemLog) -> Status
    requires lease { lease_us ≤ 60000000 }
    requires empty { log.held ≡ [] }
{
    StatusTablet::open(alloc, number, lease_us, log)
}

/// Serves a request of `from`, where the clock of the node reads this.
#[tactic(auto, using(crate::proofs::Readings::given))]
pub fn serve_status(
    status: &mut Status,
    from: Actor,
    request: &Request,
    reading: u64,
) -> Result<Served, Unanswered> {
    if !is_status_request(request) {
        return Err(Unanswered::Form);
    }
    if status.actions() >= 1 << 62 {
        return Err(Unanswered::NotAwaited);
    }
    Ok(status.serve(from, request, Some(reading)))
}

/// Whether it is a request of a status tablet's table, which names at most 64 tablets.
fn is_status_request(request: &Request) -> bool
    ensures kind { result ≡ true → IsStatusRequest request.now }
    ensures few { result ≡ true → FewTablets request.now }
{
    match request {
        Request::Begin { .. }
        | Request::AskFate { .. }
        | Request::Resolve { .. }
        | Request::Abort { .. }
        | Request::Applied { .. }
        | Request::Restart => true,
        Request::Commit { tablets, .. } => tablets.items().len() <= 64,
        _ => false,
    }
}
