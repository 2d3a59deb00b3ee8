//! What a session does for a command that starts.
ghost use Rattle.std.specs.Prelude.{◌≡◌, ℕ, [], ◌∷◌, ◌||◌, ◌<◌, ◌≤◌, ◌^◌, Option, Some, None, true, false, is_none, length, IfOk, Ok};
ghost use Rattle.txn_data.specs.declared.place.Place.{Place};
ghost use Rattle.txn_data.specs.declared.command.Command.{Command};
ghost use Rattle.txn_data.specs.declared.config.Config.{Config};
ghost use Rattle.txn_types.specs.Run.{limits_of};
ghost use Rattle.hybrid_time.specs.Time.{least_time};
ghost use Rattle.txn_types.specs.Program.{with_reading};
ghost use Rattle.txn_types.specs.Session.{Keeps, command_program, begin_program, write_command, commit_command, abort_command, read_command, read_at, has_writes, if_closed};
ghost use Rattle.txn_types.specs.TxnProgram.{txn_program};
ghost use Rattle.session_core.specs.OpenTxn.{opened, opened_if, written};
ghost use Rattle.session_core.specs.SessionState.{keeps, IsOf};
ghost use Rattle.session_core.specs.Lines.{clocked, has_few_places};
ghost use Rattle.session_core.specs.Work.{work_rest, timed, is_reading, limits_now};

use crate::open_txn::OpenTxn;
use crate::session_state::SessionState;
use crate::work::Work;
use docdb_base::{Memory, TryCopy};
use hybrid_time::{HybridTime, limit};
use intent_applier::Pass;
use read_plan::ReadPlan;
use std::alloc::Global;
use std::slice;
use txn_plan::TxnPlan;
use txn_types::{Command, Meta, Op, Place, ReadKind, TabletLimit, Told, ToldRefusal, TxnStep};

/// It is refused before it asks anything.
pub(crate) fn refuse(why: ToldRefusal) -> Work
    ensures { result ≡ Work.Over (Told.Refused why) }
{
    Work::Over(Told::Refused(why))
}

/// A step of a transaction.
fn step_work(alloc: Global, step: TxnStep) -> Result<Work, Memory>
    ensures program { (config : Config) (i : ℕ) (s : Keeps) (line : Command) → IfOk result (λ work. work_rest config i s line work ≡ txn_program step) }
    ensures limits { (s : Keeps) → IfOk result (λ work. limits_now (limits_of s.opened) work ≡ limits_of s.opened) }
    ensures asks { IfOk result (λ work. is_reading work ≡ false) }
{
    Ok(Work::Txn(TxnPlan::start(alloc, step)?))
}

/// A write inside the transaction that is open.
pub(crate) fn write_work(
    alloc: Global,
    transaction: &Option<OpenTxn>,
    last: HybridTime,
    place: &Place,
    op: Op,
) -> Result<Work, Memory>
    requires { written transaction.now < 2 ^ 32 }
    ensures program { (config : Config) (i : ℕ) (s : Keeps) (line : Command) → s.opened ≡ opened_if transaction.now → s.last ≡ last → IfOk result (λ work. work_rest config i s line work ≡ write_command s place.now op s.opened) }
    ensures limits { (s : Keeps) → IfOk result (λ work. limits_now (limits_of s.opened) work ≡ limits_of s.opened) }
    ensures asks { IfOk result (λ work. is_reading work ≡ false) }
{
    let Some(open) = transaction else {
        return Ok(refuse(ToldRefusal::NoTxn));
    };
    if open.in_doubt {
        return Ok(refuse(ToldRefusal::InDoubt));
    }
    let step = TxnStep::Write {
        meta: open.meta,
        number: open.own_writes.len() as u32,
        place: place.try_copy(alloc)?,
        op,
        read: open.r,
        seen: last,
    };
    step_work(alloc, step)
}

/// A commit of the transaction that is open.
pub(crate) fn commit_work(
    alloc: Global,
    transaction: &Option<OpenTxn>,
    last: HybridTime,
) -> Result<Work, Memory>
    ensures program { (config : Config) (i : ℕ) (s : Keeps) (line : Command) → s.opened ≡ opened_if transaction.now → s.last ≡ last → IfOk result (λ work. work_rest config i s line work ≡ commit_command s s.opened) }
    ensures limits { (s : Keeps) → IfOk result (λ work. limits_now (limits_of s.opened) work ≡ limits_of s.opened) }
    ensures asks { IfOk result (λ work. is_reading work ≡ false) }
{
    let Some(open) = transaction else {
        return Ok(refuse(ToldRefusal::NoTxn));
    };
    let step = TxnStep::Commit {
        meta: open.meta,
        floor: last,
        tablets: open.own_writes.tablets()?,
    };
    step_work(alloc, step)
}

/// An abort of the transaction that is open.
pub(crate) fn abort_work(alloc: Global, transaction: &Option<OpenTxn>) -> Result<Work, Memory>
    ensures program { (config : Config) (i : ℕ) (s : Keeps) (line : Command) → s.opened ≡ opened_if transaction.now → IfOk result (λ work. work_rest config i s line work ≡ abort_command s.opened) }
    ensures limits { (s : Keeps) → IfOk result (λ work. limits_now (limits_of s.opened) work ≡ limits_of s.opened) }
    ensures asks { IfOk result (λ work. is_reading work ≡ false) }
{
    let Some(open) = transaction else {
        return Ok(refuse(ToldRefusal::NoTxn));
    };
    step_work(alloc, TxnStep::Abort { meta: open.meta })
}

/// A single write, where no transaction is open.
pub(crate) fn single_work(
    alloc: Global,
    transaction: &Option<OpenTxn>,
    meta: Meta,
    last: HybridTime,
    place: &Place,
    op: Op,
) -> Result<Work, Memory>
    ensures program { (config : Config) (i : ℕ) (s : Keeps) (line : Command) → s.opened ≡ opened_if transaction.now → IfOk result (λ work. work_rest config i s line work ≡ if_closed s.opened (txn_program (TxnStep.Single meta place.now op last))) }
    ensures limits { (s : Keeps) → IfOk result (λ work. limits_now (limits_of s.opened) work ≡ limits_of s.opened) }
    ensures asks { IfOk result (λ work. is_reading work ≡ false) }
{
    if transaction.is_some() {
        return Ok(refuse(ToldRefusal::TxnOpen));
    }
    let step = TxnStep::Single {
        meta,
        place: place.try_copy(alloc)?,
        op,
        seen: last,
    };
    step_work(alloc, step)
}

/// A read, which takes a reading first where no transaction is open.
#[tactic(auto, unfolding(txn_types::specs::Program::then_do))]
pub(crate) fn read_work(
    alloc: Global,
    transaction: &Option<OpenTxn>,
    kind: ReadKind,
    strict: bool,
    places: &[Place],
) -> Result<Work, Memory>
    requires { length places.now ≤ 16 }
    ensures places { kind ≡ ReadKind.Get → (config : Config) (i : ℕ) (s : Keeps) → s.opened ≡ opened_if transaction.now → IfOk result (λ work. work_rest config i s (Command.Read strict places.now) work ≡ read_command config i s ReadKind.Get strict places.now s.opened) }
    ensures beneath { (place : Place) → kind ≡ ReadKind.Scan → places.now ≡ place ∷ [] → (config : Config) (i : ℕ) (s : Keeps) → s.opened ≡ opened_if transaction.now → IfOk result (λ work. work_rest config i s (Command.Scan strict place) work ≡ read_command config i s ReadKind.Scan strict (place ∷ []) s.opened) }
    ensures limits { (s : Keeps) → s.opened ≡ opened_if transaction.now → IfOk result (λ work. limits_now (limits_of s.opened) work ≡ limits_of s.opened) }
    ensures closed { IfOk result (λ work. is_reading work ≡ true → is_none transaction.now ≡ true) }
{
    let Some(open) = transaction else {
        return Ok(Work::Reading);
    };
    if open.in_doubt {
        return Ok(refuse(ToldRefusal::InDoubt));
    }
    let limits = open.limits.as_slice();
    let plan = ReadPlan::start(
        alloc,
        Some(open.meta.txn),
        kind,
        places,
        open.r,
        open.g,
        is_strict(strict, open),
        limits,
    )?;
    Ok(Work::Read(plan, copied(alloc, limits)?))
}

fn copied(alloc: Global, limits: &[TabletLimit]) -> Result<Vec<TabletLimit>, Memory>
    ensures { IfOk result (λ copy. copy.items ≡ limits.now) }
{
    let mut copy = Vec::new(alloc);
    for limit in limits {
        copy.push(*limit)?;
    }
    Ok(copy)
}

// A read inside a transaction must not restart once the transaction wrote or read.
fn is_strict(strict: bool, transaction: &OpenTxn) -> bool
    ensures { result ≡ (strict || has_writes (opened transaction.now).writes || transaction.now.has_read) }
{
    strict || transaction.own_writes.len() > 0 || transaction.has_read
}

/// What is done for a command that starts.
pub(crate) fn work_of(state: &SessionState, command: &Command) -> Result<Work, Memory>
    requires serial { state.now.serial < 2 ^ 63 }
    requires written { written state.now.transaction < 2 ^ 32 }
    requires places { has_few_places command.now ≡ true }
    ensures program { (config : Config) → IsOf config state.now → IfOk result (λ work. work_rest config state.now.session (keeps state.now) command.now work ≡ command_program config state.now.session (keeps state.now) command.now) }
    ensures limits { IfOk result (λ work. limits_now (limits_of (keeps state.now).opened) work ≡ limits_of (keeps state.now).opened) }
    ensures closed { IfOk result (λ work. is_reading work ≡ true → is_none state.now.transaction ≡ true) }
    ensures wanting { IfOk result (λ work. is_reading work ≡ true → clocked command.now ≡ true) }
{
    let alloc = state.alloc;
    let last = state.last;
    let transaction = &state.transaction;
    match command {
        Command::Begin { .. } => Ok(begin_work(transaction)),
        Command::Put { place, value } => {
            write_work(
                alloc,
                transaction,
                last,
                place,
                Op::Put(value.try_copy(alloc)?),
            )
        }
        Command::Del { place } => write_work(alloc, transaction, last, place, Op::Delete),
        Command::Commit => commit_work(alloc, transaction, last),
        Command::Abort | Command::End => abort_work(alloc, transaction),
        Command::Read { strict, places } => {
            read_work(alloc, transaction, ReadKind::Get, *strict, places.items())
        }
        Command::Scan { strict, place } => {
            let places = slice::from_ref(place);
            read_work(alloc, transaction, ReadKind::Scan, *strict, places)
        }
        Command::SinglePut {
            place,
            value,
            priority,
        } => {
            let meta = state.next_meta(*priority);
            let op = Op::Put(value.try_copy(alloc)?);
            single_work(alloc, transaction, meta, last, place, op)
        }
        Command::SingleDel { place, priority } => {
            let meta = state.next_meta(*priority);
            single_work(alloc, transaction, meta, last, place, Op::Delete)
        }
        Command::Restart { actor } => Ok(Work::Restart(*actor)),
        Command::Apply { tablet } => Ok(Work::Apply(Pass::start(alloc, *tablet)?)),
        Command::Clock { .. } => Ok(Work::Over(Told::Set)),
    }
}

// A begin, which takes a reading first where no transaction is open.
fn begin_work(transaction: &Option<OpenTxn>) -> Work
    ensures program { (config : Config) (i : ℕ) (s : Keeps) (priority : ℕ) → s.opened ≡ opened_if transaction.now → work_rest config i s (Command.Begin priority) result ≡ if_closed s.opened (begin_program config i s priority) }
    ensures limits { (s : Keeps) → limits_now (limits_of s.opened) result ≡ limits_of s.opened }
    ensures closed { is_reading result ≡ true → is_none transaction.now ≡ true }
{
    match transaction {
        Some(_) => refuse(ToldRefusal::TxnOpen),
        None => Work::Reading,
    }
}

/// What is done with a reading that was wanted, at the session's new time, where no transaction is open.
#[tactic(auto, unfolding(txn_types::specs::Program::then_do))]
pub(crate) fn timed_work(
    state: &SessionState,
    line: &Command,
    reading: u64,
    now: HybridTime,
) -> Result<Work, Memory>
    requires serial { state.now.serial < 2 ^ 63 }
    requires closed { is_none state.now.transaction ≡ true }
    requires clocked { clocked line.now ≡ true }
    requires places { has_few_places line.now ≡ true }
    requires range { reading ≤ 4000000000000000 }
    requires time { least_time state.now.last 0 reading ≡ Ok now }
    ensures program { (config : Config) → IsOf config state.now → IfOk result (λ work. work_rest config state.now.session (keeps state.now) line.now work ≡ with_reading (timed config state.now.session (keeps state.now) line.now) (Some reading)) }
    ensures limits { IfOk result (λ work. limits_now (limits_of (keeps state.now).opened) work ≡ limits_of (keeps state.now).opened) }
    ensures asks { IfOk result (λ work. is_reading work ≡ false) }
{
    match line {
        Command::Read { strict, places } => {
            alone_work(state, ReadKind::Get, *strict, places.items(), reading, now)
        }
        Command::Scan { strict, place } => {
            let places = slice::from_ref(place);
            alone_work(state, ReadKind::Scan, *strict, places, reading, now)
        }
        Command::Begin { priority } => {
            let meta = state.next_meta(*priority);
            step_work(state.alloc, TxnStep::Begin { meta, r: now })
        }
        _ => unreachable!(),
    }
}

// A read outside a transaction, at the session's new time.
#[tactic(auto, unfolding(txn_types::specs::Program::then_do))]
fn alone_work(
    state: &SessionState,
    kind: ReadKind,
    strict: bool,
    places: &[Place],
    reading: u64,
    now: HybridTime,
) -> Result<Work, Memory>
    requires places { length places.now ≤ 16 }
    requires range { reading ≤ 4000000000000000 }
    requires closed { is_none state.now.transaction ≡ true }
    ensures places { kind ≡ ReadKind.Get → (config : Config) → IsOf config state.now → IfOk result (λ work. work_rest config state.now.session (keeps state.now) (Command.Read strict places.now) work ≡ read_at config ReadKind.Get strict places.now reading now) }
    ensures beneath { (place : Place) → kind ≡ ReadKind.Scan → places.now ≡ place ∷ [] → (config : Config) → IsOf config state.now → IfOk result (λ work. work_rest config state.now.session (keeps state.now) (Command.Scan strict place) work ≡ read_at config ReadKind.Scan strict (place ∷ []) reading now) }
    ensures limits { IfOk result (λ work. limits_now (limits_of (keeps state.now).opened) work ≡ limits_of (keeps state.now).opened) }
    ensures asks { IfOk result (λ work. is_reading work ≡ false) }
{
    let alloc = state.alloc;
    let window = limit(reading, state.skew_us);
    let g = if now < window { window } else { now };
    let plan = ReadPlan::start(alloc, None, kind, places, now, g, strict, &[])?;
    Ok(Work::Read(plan, Vec::new(alloc)))
}
