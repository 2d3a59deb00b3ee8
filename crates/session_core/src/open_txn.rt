//! The open transaction.
ghost use Rattle.std.specs.Prelude.{◌≡◌, ℕ, ◌≤◌, ◌<◌, ◌+◌, ◌^◌, true, List, Option, Some, None, length};
ghost use Rattle.txn_data.specs.declared.command.Command.{Command};
ghost use Rattle.txn_data.specs.declared.config.Config.{Config};
ghost use Rattle.txn_data.specs.declared.tablet_limit.TabletLimit.{TabletLimit};
ghost use Rattle.txn_types.specs.Session.{Keeps, after_write as written_after, after_end as ended_after, after_read as read_after, opened_after, next_meta};
ghost use Rattle.own_writes.specs.OwnWrites.{HasRoom};
ghost use Rattle.session_core.specs.OpenTxn.{opened, opened_if, written, limits_held};
ghost use Rattle.session_core.specs.Lines.{writes_line};

use hybrid_time::{HybridTime, limit};
use own_writes::OwnWrites;
use std::alloc::Global;
use txn_types::{Command, Meta, Op, Place, TabletLimit, Told, ToldRefusal};

/// The open transaction.
#[derive(Drop)]
pub(crate) struct OpenTxn {
    pub(crate) meta: Meta,
    /// The time at which it reads, and the end of its window.
    pub(crate) r: HybridTime,
    pub(crate) g: HybridTime,
    pub(crate) own_writes: OwnWrites,
    /// The local limits that its reads fixed.
    pub(crate) limits: Vec<TabletLimit>,
    pub(crate) has_read: bool,
    /// A commit or an abort of it was told a fault of the log.
    pub(crate) in_doubt: bool,
}

/// The transaction that a line opened, where no other is open: a begin that was told so.
pub(crate) fn begun(
    alloc: Global,
    line: &Command,
    meta: Meta,
    skew_us: u64,
    reading: Option<u64>,
    told: &Told,
) -> Option<OpenTxn>
    requires range { (micros : ℕ) → reading ≡ Some micros → micros ≤ 4000000000000000 }
    requires skew { skew_us ≤ 10000000 }
    ensures fresh { written result ≡ 0 }
    ensures value { (config : Config) (i : ℕ) (s : Keeps) (limits : List TabletLimit) → ((priority : ℕ) → line.now ≡ Command.Begin priority → meta ≡ next_meta config i s priority) → skew_us ≡ config.skew_us → opened_if result ≡ opened_after config i s line.now reading limits told.now None }
{
    let (Command::Begin { .. }, Some(reading), Told::Began { at, .. }) = (line, reading, told)
    else {
        return None;
    };
    let window = limit(reading, skew_us);
    let g = if *at < window { window } else { *at };
    Some(OpenTxn {
        meta,
        r: *at,
        g,
        own_writes: OwnWrites::new(alloc),
        limits: Vec::new(alloc),
        has_read: false,
        in_doubt: false,
    })
}

/// What is left of the open transaction once a command is told. `limits` are those of a read, as they stand now.
pub(crate) fn after_line(
    transaction: OpenTxn,
    line: Command,
    limits: Option<Vec<TabletLimit>>,
    told: &Told,
) -> Option<OpenTxn>
    requires room { writes_line line ≡ true → HasRoom transaction.own_writes }
    requires few { length (opened transaction).writes < 2 ^ 32 }
    ensures more { written result ≤ length (opened transaction).writes + 1 }
    ensures value { (config : Config) (i : ℕ) (s : Keeps) (reading : Option ℕ) → opened_if result ≡ opened_after config i s line reading (limits_held limits (opened transaction).limits) told.now (Some (opened transaction)) }
{
    match line {
        Command::Put { place, value } => after_write(transaction, place, Op::Put(value), told),
        Command::Del { place } => after_write(transaction, place, Op::Delete, told),
        Command::Commit | Command::Abort | Command::End => after_end(transaction, told),
        Command::Read { .. } | Command::Scan { .. } => Some(after_read(transaction, limits, told)),
        _ => Some(transaction),
    }
}

fn after_write(mut transaction: OpenTxn, place: Place, op: Op, told: &Told) -> Option<OpenTxn>
    requires room { HasRoom transaction.own_writes }
    requires few { length (opened transaction).writes < 2 ^ 32 }
    ensures value { opened_if result ≡ written_after (opened transaction) place op told.now }
    ensures more { written result ≤ length (opened transaction).writes + 1 }
{
    match told {
        Told::Written { .. } => {
            transaction.own_writes.push(place, op);
            Some(transaction)
        }
        Told::Refused(
            ToldRefusal::Conflict { .. }
            | ToldRefusal::Overlap { .. }
            | ToldRefusal::LogFault { .. },
        ) => None,
        _ => Some(transaction),
    }
}

fn after_end(mut transaction: OpenTxn, told: &Told) -> Option<OpenTxn>
    ensures value { opened_if result ≡ ended_after (opened transaction) told.now }
    ensures more { written result ≤ length (opened transaction).writes + 1 }
{
    match told {
        Told::Committed { .. } | Told::Ended { .. } | Told::Refused(ToldRefusal::Aborted { .. }) =>
            None,
        Told::Refused(ToldRefusal::LogFault { .. }) => {
            transaction.in_doubt = true;
            Some(transaction)
        }
        _ => Some(transaction),
    }
}

fn after_read(mut transaction: OpenTxn, limits: Option<Vec<TabletLimit>>, told: &Told) -> OpenTxn
    ensures value { Some (opened result) ≡ read_after (opened transaction) (limits_held limits (opened transaction).limits) told.now }
    ensures more { length (opened result).writes ≤ length (opened transaction).writes + 1 }
{
    if let Some(limits) = limits {
        transaction.limits = limits;
    }
    if let Told::Values { at, .. } = told {
        if !transaction.has_read {
            transaction.r = *at;
        }
        transaction.has_read = true;
    }
    transaction
}
