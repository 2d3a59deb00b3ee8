//! A tablet by hand.
ghost use Rattle.std.specs.Prelude.{◌≡◌, ◌≤◌, ◌&&◌, true, [], IsTrue, IfOk};
ghost use Rattle.std.specs.List.{All};
ghost use Rattle.log_record.specs.Spelling.{is_path, is_op};
ghost use Rattle.tablet_core.specs.Requests.{Accepts, IsGood};

use crate::unanswered::Unanswered;
use doc_path::Path;
use docdb_base::{Memory, TryCopy};
use docdb_outside::MemLog;
use hybrid_time::HybridTime;
use log_record::LogRecord;
use regular_records::MapVersions;
use std::alloc::Global;
use tablet_core::TabletCore;
use txn_types::{Actor, Machine, Op, Request, Served, TxnId};

/// The tablet of this program.
pub type Tablet = TabletCore<MapVersions, MemLog>;

/// A tablet on this empty log.
pub fn open_tablet(alloc: Global, number: u32, lease_us: u64, log: MemLog) -> Tablet
    requires lease { lease_us ≤ 60000000 }
    requires empty { log.held ≡ [] }
{
    TabletCore::open(alloc, number, lease_us, MapVersions::new(alloc), log)
}

/// Serves a request of `from`, where the clock of the node reads this.
#[tactic(auto, using(crate::proofs::Readings::given))]
pub fn serve_tablet(
    alloc: Global,
    tablet: &mut Tablet,
    from: Actor,
    request: &Request,
    reading: u64,
) -> Result<Served, Unanswered> {
    if !accepts(alloc, request)? {
        return Err(Unanswered::Form);
    }
    if tablet.actions() >= 1 << 62 {
        return Err(Unanswered::NotAwaited);
    }
    Ok(tablet.serve(from, request, Some(reading)))
}

/// Whether it is a request of a tablet's table, whose paths and value can be logged.
fn accepts(alloc: Global, request: &Request) -> Result<bool, Memory>
    ensures { IfOk result (λ taken. taken ≡ true → Accepts (λ _. Unit {0}) request.now) }
{
    match request {
        Request::ListWrite { path, .. } => is_good(alloc, path),
        Request::Write { path, op, .. } | Request::Single { path, op, .. } => {
            is_spelled(alloc, path, op)
        }
        Request::ListRead { paths, .. } | Request::Collect { paths, .. } => {
            are_good(alloc, paths.items())
        }
        Request::ListIntents | Request::Apply { .. } | Request::Clean { .. } | Request::Restart =>
            Ok(true),
        _ => Ok(false),
    }
}

fn is_spelled(alloc: Global, path: &Path, op: &Op) -> Result<bool, Memory>
    ensures { IfOk result (λ has. has ≡ true → IsTrue (is_path path.now && is_op op.now)) }
{
    let record = LogRecord::Single {
        txn: TxnId { number: 0 },
        at: HybridTime::ZERO,
        path: path.try_copy(alloc)?,
        op: op.try_copy(alloc)?,
    };
    Ok(record.has_spelling())
}

fn is_good(alloc: Global, path: &Path) -> Result<bool, Memory>
    ensures { IfOk result (λ has. has ≡ true → IsGood (λ _. Unit {0}) path.now) }
{
    is_spelled(alloc, path, &Op::Delete)
}

fn are_good(alloc: Global, paths: &[Path]) -> Result<bool, Memory>
    ensures { IfOk result (λ have. have ≡ true → All (IsGood (λ _. Unit {0})) paths.now) }
{
    'paths: for path in paths {
        if !is_good(alloc, path)? {
            return Ok(false);
        }
    }
    Ok(true)
}
