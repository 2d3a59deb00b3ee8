//! The numbers of a record that a program holds are those of their types.
ghost use Rattle.std.specs.List.{AllByRecursion};
ghost use Rattle.log_record.specs.Spelling.{IsU32, IsU64, IsId, IsBy, IsMeta, IsInRange};

use hybrid_time::HybridTime;
use log_record::LogRecord;
use txn_types::{Meta, TxnId};

/// The numbers of a record are in the range of their types. It only reads them.
pub fn numbers_are_in_range(logged: &LogRecord)
    ensures { IsInRange logged.now }
{
    match logged {
        LogRecord::Lease { until } => number_is_in_range(*until),
        LogRecord::Write {
            meta,
            number,
            at,
            ..
        } => {
            meta_is_in_range(*meta);
            time_is_in_range(*at);
            count_is_in_range(*number);
        }
        LogRecord::Single { txn, at, .. } | LogRecord::Apply { txn, at } => {
            id_is_in_range(*txn);
            time_is_in_range(*at);
        }
        LogRecord::Begin { txn, priority, .. } => {
            id_is_in_range(*txn);
            count_is_in_range(*priority);
        }
        LogRecord::Commit { txn, at, tablets } => {
            id_is_in_range(*txn);
            time_is_in_range(*at);
            counts_are_in_range(tablets.items());
        }
        LogRecord::Abort { txn, by } => {
            id_is_in_range(*txn);
            aborter_is_in_range(*by);
        }
        LogRecord::Clean { txn } | LogRecord::Forget { txn } => id_is_in_range(*txn),
    }
}

fn number_is_in_range(_number: u64)
    ensures { IsU64 _number }
{}

fn count_is_in_range(_count: u32)
    ensures { IsU32 _count }
{}

fn time_is_in_range(time: HybridTime)
    ensures { IsU64 time }
{
    let _micros = time.micros();
}

fn id_is_in_range(txn: TxnId)
    ensures { IsId txn }
{
    let _number = txn.number;
}

fn meta_is_in_range(meta: Meta)
    ensures { IsMeta meta }
{
    id_is_in_range(meta.txn);
}

fn aborter_is_in_range(by: Option<TxnId>)
    ensures { IsBy by }
{
    if let Some(txn) = by {
        id_is_in_range(txn);
    }
}

fn counts_are_in_range(_counts: &[u32])
    ensures { AllByRecursion IsU32 _counts.now }
{}
