//! What a session does for the command that is in flight.
ghost use Rattle.std.specs.Prelude.{◌≡◌, ◌<◌, ℕ, Option, true, false, IsOk, IfOk, OnOk, OnErr};
ghost use Rattle.std.specs.Option.{option_copied};
ghost use Rattle.std.specs.Vec.{vec_len, vec_capacity};
ghost use Rattle.txn_data.specs.declared.command.Command.{Command as Line};
ghost use Rattle.txn_data.specs.declared.config.Config.{Config};
ghost use Rattle.txn_types.specs.Program.{Done, heard, then_do, turn};
ghost use Rattle.txn_types.specs.ReadProgram.{limit_of as limit_in};
ghost use Rattle.txn_types.specs.Run.{limits_after, is_settling};
ghost use Rattle.txn_types.specs.Session.{Keeps, restart_program, writes_of};
ghost use Rattle.txn_plan.specs.Rest.{rest as step_rest};
ghost use Rattle.txn_plan.specs.Stage.{takes_room as step_takes_room};
ghost use Rattle.intent_applier.specs.Rest.{rest as pass_rest};
ghost use Rattle.read_plan.specs.Rest.{rest as read_rest};
ghost use Rattle.read_plan.specs.Stage.{takes_room as read_takes_room, end_takes_room};
ghost use Rattle.own_writes.specs.OwnWrites.{writes, HasRoom};
ghost use Rattle.session_core.specs.Lines.{clocked, is_listed};
ghost use Rattle.session_core.specs.OpenTxn.{opened_if, limits_held, HaveRoom};
ghost use Rattle.session_core.specs.Turn.{turn_of, is_ask, asks_list, is_wanting};
ghost use Rattle.session_core.specs.Work.{ended, is_asks, shown, shown_at, scanned as place_scanned};

use crate::open_txn::OpenTxn;
use crate::turn::Turn;
use docdb_base::Memory;
use hybrid_time::HybridTime;
use intent_applier::{Pass, PassTurn};
use own_writes::OwnWrites;
use read_plan::{ReadPlan, ReadTurn};
use std::mem;
use txn_plan::{TxnPlan, TxnTurn, laws};
use txn_types::{
    Actor, Command, Place, ReadEnd, ReadWhat, Refusal, Reply, Request, Rows, TabletLimit, Told,
    ToldRefusal, told_refusal,
};

/// What a session does for the command that is in flight.
#[derive(Drop)]
pub(crate) enum Work {
    /// It wants a reading.
    Reading,
    /// It is over, and told so.
    Over(Told),
    Txn(TxnPlan),
    /// It reads. These are the limits of its transaction as they stand now.
    Read(ReadPlan, Vec<TabletLimit>),
    Apply(Pass),
    /// It asked this actor to restart.
    Restart(Actor),
}

#[tactic(auto, unfolding(txn_types::specs::Program::then_do))]
impl Work {
    ghost use Rattle.session_core.specs.Work.{work_rest, waits, takes_room, is_reading, is_read, limits_now, HasLimitRoom};
    ghost use Rattle.txn_data.specs.declared.tablet_limit.TabletLimit.{TabletLimit as Limit};
    ghost use Rattle.std.specs.Prelude.{List};

    /// Goes on with the reply to what was asked. If memory runs out, it is as before.
    pub(crate) fn hear(&mut self, reply: &Reply) -> Result<(), Memory>
        requires { waits self.old ≡ true }
        ensures ok { (config : Config) (i : ℕ) (s : Keeps) (line : Line) → OnOk result (work_rest config i s line self.new ≡ heard (work_rest config i s line self.old) reply.now) }
        ensures limits { (before : List Limit) → limits_now before self.new ≡ limits_now before self.old }
        ensures room { OnErr result (takes_room self.old ≡ true) }
        ensures unsettled { OnErr result (is_settling reply.now ≡ false) }
        ensures settled { OnOk result (is_settling reply.now ≡ true → takes_room self.new ≡ false) }
        ensures quiet { takes_room self.old ≡ false → takes_room self.new ≡ false }
        ensures wants { is_reading self.new ≡ false }
    {
        match self {
            Work::Txn(plan) => {
                laws::stays_quiet();
                plan.hear(reply)
            }
            Work::Read(plan, _) => plan.hear(reply),
            Work::Apply(pass) => pass.hear(reply),
            Work::Restart(actor) => {
                *self = Work::Over(restarted(*actor, reply));
                Ok(())
            }
            Work::Reading | Work::Over(_) => Ok(()),
        }
    }

    /// What comes next for this command. Where it asks, the work is as before. It keeps the limits of a read.
    pub(crate) fn next(
        &mut self,
        line: &Command,
        transaction: &mut Option<OpenTxn>,
    ) -> Result<Turn, Memory>
        requires { is_reading self.old ≡ true → clocked line.now ≡ true }
        ensures turn { (config : Config) (i : ℕ) (s : Keeps) → s.opened ≡ opened_if transaction.old → IfOk result (λ next. turn_of next ≡ turn (work_rest config i s line.now self.old)) }
        ensures asks { IfOk result (λ next. is_ask next ≡ true → self.new ≡ self.old) }
        ensures waits { IfOk result (λ next. is_ask next ≡ true → waits self.old ≡ true) }
        ensures lists { IfOk result (λ next. asks_list next ≡ true → is_read self.old ≡ true) }
        ensures takes { IfOk result (λ next. is_ask next ≡ true → is_read self.old ≡ true → takes_room self.old ≡ true) }
        ensures wants { IfOk result (λ next. is_wanting next ≡ true → (self.new ≡ self.old) × (is_reading self.old ≡ true)) }
        ensures limits { (before : List Limit) → limits_now before self.new ≡ limits_now before self.old }
        ensures room { OnErr result (takes_room self.old ≡ true) }
        ensures same { opened_if transaction.new ≡ opened_if transaction.old }
        ensures fits { HaveRoom transaction.old → HaveRoom transaction.new }
    {
        match self {
            Work::Reading => Ok(Turn::Reading),
            Work::Over(told) => Ok(Turn::Tell(mem::replace(told, Told::Set))),
            Work::Txn(plan) => next_of_step(plan),
            Work::Read(plan, _) => next_of_read(plan, line, transaction),
            Work::Apply(pass) => next_of_pass(pass),
            Work::Restart(actor) => Ok(Turn::Ask {
                to: *actor,
                request: Request::Restart,
            }),
        }
    }

    /// A local limit that a read hears of is fixed. It takes no memory.
    pub(crate) fn fix_limit(&mut self, from: Actor, reply: &Reply)
        requires listed { is_listed reply.now ≡ true → is_read self.old ≡ true }
        requires room { HasLimitRoom self.old }
        ensures rest { (config : Config) (i : ℕ) (s : Keeps) (line : Line) → work_rest config i s line self.new ≡ work_rest config i s line self.old }
        ensures limits { (before : List Limit) → limits_now before self.new ≡ limits_after (limits_now before self.old) from reply.now }
        ensures takes { takes_room self.new ≡ takes_room self.old }
        ensures waits { waits self.new ≡ waits self.old }
        ensures wants { is_reading self.new ≡ is_reading self.old }
    {
        if let Work::Read(_, limits) = self {
            fix_limit(limits, from, reply);
        }
    }

    /// Makes room for one more limit of a read.
    pub(crate) fn make_room(&mut self) -> Result<(), Memory>
        ensures rest { (config : Config) (i : ℕ) (s : Keeps) (line : Line) → work_rest config i s line self.new ≡ work_rest config i s line self.old }
        ensures limits { (before : List Limit) → limits_now before self.new ≡ limits_now before self.old }
        ensures takes { takes_room self.new ≡ takes_room self.old }
        ensures waits { waits self.new ≡ waits self.old }
        ensures wants { is_reading self.new ≡ is_reading self.old }
        ensures read { is_read self.new ≡ is_read self.old }
        ensures room { OnOk result (HasLimitRoom self.new) }
        ensures reads { OnErr result (is_read self.old ≡ true) }
    {
        if let Work::Read(_, limits) = self {
            limits.reserve(1)?;
        }
        Ok(())
    }

    /// The limits of a read.
    pub(crate) fn into_limits(self) -> Option<Vec<TabletLimit>>
        ensures { (before : List Limit) → limits_held result before ≡ limits_now before self }
    {
        match self {
            Work::Read(_, limits) => Some(limits),
            _ => None,
        }
    }
}

// What is told after the reply of this actor to a Restart.
fn restarted(actor: Actor, reply: &Reply) -> Told
    ensures { Done result ≡ heard (restart_program actor) reply.now }
{
    match reply {
        Reply::Restarted { kept } => Told::Restarted { kept: *kept },
        Reply::Refused(why) => Told::Refused(told_refusal(actor, *why)),
        _ => Told::Refused(told_refusal(actor, Refusal::Memory)),
    }
}

/// What a step of a transaction does next. It changes nothing.
#[tactic(auto, using(crate::proofs::Programs::asks_from, crate::proofs::Listing::step_lists))]
fn next_of_step(plan: &mut TxnPlan) -> Result<Turn, Memory>
    ensures turn { IfOk result (λ next. turn_of next ≡ turn (step_rest plan.old)) }
    ensures same { plan.new ≡ plan.old }
    ensures waits { IfOk result (λ next. is_ask next ≡ true → is_asks (step_rest plan.old) ≡ true) }
    ensures lists { IfOk result (λ next. asks_list next ≡ false) }
    ensures room { OnErr result (step_takes_room (turn (step_rest plan.old)) ≡ true) }
    ensures wants { IfOk result (λ next. is_wanting next ≡ false) }
{
    txn_plan::laws::lists_for_no_read();
    match plan.next()? {
        TxnTurn::Ask { to, request } => Ok(Turn::Ask { to, request }),
        TxnTurn::Done(told) => Ok(Turn::Tell(told)),
    }
}

/// What a pass does next. It changes nothing.
#[tactic(auto, using(crate::proofs::Programs::asks_from, crate::proofs::Listing::pass_lists))]
fn next_of_pass(pass: &mut Pass) -> Result<Turn, Memory>
    ensures turn { IfOk result (λ next. turn_of next ≡ turn (pass_rest pass.old)) }
    ensures same { pass.new ≡ pass.old }
    ensures waits { IfOk result (λ next. is_ask next ≡ true → is_asks (pass_rest pass.old) ≡ true) }
    ensures lists { IfOk result (λ next. asks_list next ≡ false) }
    ensures room { IsOk result }
    ensures wants { IfOk result (λ next. is_wanting next ≡ false) }
{
    intent_applier::laws::lists_for_no_read();
    match pass.next()? {
        PassTurn::Ask { to, request } => Ok(Turn::Ask { to, request }),
        PassTurn::Done(told) => Ok(Turn::Tell(told)),
    }
}

/// What a read does next. Where it asks, it is as before.
#[tactic(auto, using(crate::proofs::Programs::asks_from), unfolding(txn_types::specs::Program::then_do))]
fn next_of_read(
    plan: &mut ReadPlan,
    line: &Command,
    transaction: &mut Option<OpenTxn>,
) -> Result<Turn, Memory>
    ensures turn { IfOk result (λ next. turn_of next ≡ turn (then_do (read_rest plan.old) (λ end. Done (ended (opened_if transaction.old) line.now end)))) }
    ensures asks { IfOk result (λ next. is_ask next ≡ true → plan.new ≡ plan.old) }
    ensures waits { IfOk result (λ next. is_ask next ≡ true → is_asks (read_rest plan.old) ≡ true) }
    ensures takes { IfOk result (λ next. is_ask next ≡ true → read_takes_room (turn (read_rest plan.old)) ≡ true) }
    ensures room { OnErr result (read_takes_room (turn (read_rest plan.old)) ≡ true) }
    ensures wants { IfOk result (λ next. is_wanting next ≡ false) }
    ensures same { opened_if transaction.new ≡ opened_if transaction.old }
    ensures fits { HaveRoom transaction.old → HaveRoom transaction.new }
{
    match plan.next()? {
        ReadTurn::Ask { to, request } => Ok(Turn::Ask { to, request }),
        ReadTurn::Done(end) => Ok(Turn::Tell(read_told(line, transaction, end)?)),
    }
}

// What a read is told: its rows beneath the own writes of its transaction, or why there are none.
fn read_told(
    line: &Command,
    transaction: &mut Option<OpenTxn>,
    end: ReadEnd,
) -> Result<Told, Memory>
    ensures told { IfOk result (λ told. told ≡ ended (opened_if transaction.old) line.now end) }
    ensures room { OnErr result (end_takes_room end.what ≡ true) }
    ensures same { opened_if transaction.new ≡ opened_if transaction.old }
    ensures fits { HaveRoom transaction.old → HaveRoom transaction.new }
{
    let ReadEnd {
        what,
        t: at,
        restarts,
        limits: _,
    } = end;
    match what {
        ReadWhat::Values(rows) => Ok(Told::Values {
            at,
            restarts,
            rows: rows_told(line, transaction, rows)?,
        }),
        ReadWhat::Restart { at, path } => Ok(Told::Refused(ToldRefusal::Restart { at, path })),
        ReadWhat::Refused(why) => Ok(Told::Refused(why)),
    }
}

// These rows beneath the own writes of the transaction.
fn rows_told(line: &Command, transaction: &mut Option<OpenTxn>, rows: Rows) -> Result<Rows, Memory>
    ensures rows { IfOk result (λ all. all ≡ shown (opened_if transaction.old) line.now rows) }
    ensures same { opened_if transaction.new ≡ opened_if transaction.old }
    ensures fits { HaveRoom transaction.old → HaveRoom transaction.new }
{
    match transaction {
        Some(transaction) => rows_over(&mut transaction.own_writes, scanned(line), rows),
        None => Ok(rows),
    }
}

// These rows, of a scan of this place where there is one, beneath these writes.
fn rows_over(own_writes: &mut OwnWrites, place: Option<&Place>, rows: Rows) -> Result<Rows, Memory>
    ensures rows { IfOk result (λ all. all ≡ shown_at (writes_of (writes own_writes.old)) (option_copied place.entry) rows) }
    ensures same { writes own_writes.new ≡ writes own_writes.old }
    ensures fits { HasRoom own_writes.old → HasRoom own_writes.new }
{
    match place {
        Some(place) => own_writes.over_scan(place, rows),
        None => own_writes.over_rows(rows),
    }
}

// The place of a scan.
fn scanned(line: &Command) -> Option<&Place>
    ensures { option_copied result ≡ place_scanned line.now }
{
    match line {
        Command::Scan { place, .. } => Some(place),
        _ => None,
    }
}

/// The first local limit that is heard from a tablet is fixed. There is at most one for each tablet of a cluster. It takes
/// no memory.
fn fix_limit(limits: &mut Vec<TabletLimit>, from: Actor, reply: &Reply)
    requires { is_listed reply.now ≡ true → vec_len limits.old < vec_capacity limits.old }
    ensures { limits.new.items ≡ limits_after limits.old.items from reply.now }
{
    let (Actor::Tablet(tablet), Reply::Listed { limit, .. }) = (from, reply) else {
        return;
    };
    match limit_of(tablet, limits) {
        Some(_) => (),
        None => {
            let limit = *limit;
            let Ok(()) = limits.push(TabletLimit { tablet, limit }) else {
                unreachable!();
            };
        }
    }
}

// The local limit that is fixed at this tablet.
fn limit_of(tablet: u32, limits: &[TabletLimit]) -> Option<HybridTime>
    ensures { result ≡ limit_in tablet limits.now }
{
    for of in limits {
        if of.tablet == tablet {
            return Some(of.limit);
        }
    }
    None
}
