//! The log of an actor, with its clock and its counts.
ghost use Rattle.std.specs.Prelude.{◌≡◌, ◌≤◌, ◌<◌, ◌+◌, ◌^◌, ℕ, ◌∷◌, List, [], length, Some, None, IsTrue, IfSome, IfOk, OnOk, OnErr, IsErrOf};
ghost use Rattle.docdb_outside.specs.Count.{Rose};
ghost use Rattle.txn_data.specs.declared.actor.Actor.{Actor};
ghost use Rattle.txn_data.specs.declared.append.Append.TheVariants.{Failed as AppendFailed};
ghost use Rattle.txn_types.specs.History.{History};
ghost use Rattle.log_record.specs.Spelling.{has_spelling};
ghost use Rattle.std.specs.List.{AllByRecursion};
ghost use Rattle.tablet_log.specs.Frames.{IsRecord, Holds, frames};
ghost use Rattle.safe_time.specs.ActorClock.{served as next_step, at_first};
ghost use Rattle.leased_log.specs.Stands.{Stands, IsSame};
ghost use Rattle.leased_log.specs.Decides.{time_of, records_of_step, records_for, Does};
ghost use Rattle.leased_log.specs.Acts.{clock_after, Acts};
ghost use Rattle.leased_log.specs.Loads.{FailsToLoad, StaysDown, StartsFrom, Restarts};
ghost use Rattle.tablet_log.specs.Replay.{lease_in};

use crate::action::{Action, lease_of};
use crate::decision::Decision;
use docdb_base::Memory;
use docdb_outside::{LoadFault, LogStore};
use hybrid_time::HybridTime;
use log_record::LogRecord;
use safe_time::{ActorClock, ClockRefusal, Step, entries_move_the_clock};
use std::alloc::Global;
use std::marker::Model;
use tablet_log::{
    ReplayRefusal, a_restart_is_logged, a_serve_is_logged, a_status_tablet_is_replayed,
    bytes_have_one_meaning, replay,
};
use txn_types::{Append, Refusal, Reply, Served};

/// The log of an actor, with its clock and its counts.
#[derive(Drop)]
pub struct LeasedLog<L: LogStore> {
    alloc: Global,
    store: L,
    clock: ActorClock,
    actions: u64,
    down: Option<u64>,
    records: u64,
}

impl<L: LogStore> Model for LeasedLog<L> {
    ghost use Rattle.leased_log.specs.Stands.{LogState, IsWhole};

    ghost Value = { LogState };

    ghost view = { λ s. record {
      held = L.held s.store;
      faults = L.faults s.store;
      loads = L.loads s.store;
      room = L.room s.store;
      clock = s.clock;
      actions = s.actions;
      down = s.down;
      records = s.records;
    } };

    ghost invariant = { λ s. IsWhole (L.held s.store) };
}

impl<L: LogStore> LeasedLog<L> {
    /// The log of an actor that made no action, on an empty store. Its leases last `lease_us` microseconds, 1 to
    /// 60,000,000. It takes no memory.
    pub fn open(alloc: Global, lease_us: u64, store: L) -> LeasedLog<L>
        requires lease { lease_us ≤ 60000000 }
        requires empty { L.held store ≡ [] }
        ensures begins { result ≡ record {
          held = L.held store;
          faults = L.faults store;
          loads = L.loads store;
          room = L.room store;
          clock = at_first lease_us;
          actions = 0;
          down = None;
          records = 0;
        } }
        ensures stands { (a : Actor) → Stands a result [] (L.faults store) [] }
    {
        LeasedLog {
            alloc,
            store,
            clock: ActorClock::new(lease_us),
            actions: 0,
            down: None,
            records: 0,
        }
    }

    /// The store. It takes no memory.
    pub fn into_store(self) -> L
        ensures held { L.held result ≡ self.held }
        ensures faults { L.faults result ≡ self.faults }
        ensures loads { L.loads result ≡ self.loads }
        ensures room { L.room result ≡ self.room }
    {
        let LeasedLog { store, .. } = self;
        store
    }

    /// How many actions there were. It takes no memory.
    pub fn actions(&self) -> u64
        ensures { result ≡ self.now.actions }
    {
        self.actions
    }

    /// The number of the action since which the actor is down. It takes no memory.
    pub fn down(&self) -> Option<u64>
        ensures { result ≡ self.now.down }
    {
        self.down
    }

    /// The next step of the clock at this reading, in microseconds. It changes nothing, and takes no memory.
    pub fn step(&self, reading: u64, floor: HybridTime, tick: bool) -> Result<Step, ClockRefusal>
        ensures { result ≡ next_step self.now.clock reading floor tick }
    {
        self.clock.serve(reading, floor, tick)
    }

    /// Takes all memory that it needs to do what was decided, also in the store. Nothing else changes, whatever the
    /// answer.
    pub fn ready(&mut self, decision: Decision) -> Result<Action, Memory>
        requires { IfSome decision.own (λ own. IsTrue (has_spelling own)) }
        ensures ready { IfOk result (λ action. action ≡ decision) }
        ensures room { IfOk result (λ action. length (frames (records_for action)) ≤ self.new.room) }
        ensures same { IsSame self.old self.new }
        ensures faults { self.new.faults ≡ self.old.faults }
        ensures loads { self.new.loads ≡ self.old.loads }
    {
        let action = Action::of(self.alloc, decision)?;
        self.store.make_room(action.bytes.len())?;
        Ok(action)
    }

    /// Does what was decided: the time is given, and what is to be logged goes to the store in one append. Where the store
    /// fails the actor is down from then on. It takes no memory.
    pub fn act(&mut self, action: Action) -> Served
        requires room { length (frames (records_for action)) ≤ self.old.room }
        requires actions { self.old.actions < 2 ^ 62 }
        ensures acts { Acts self.old self.new action result }
        ensures does { Does self.old self.new action result }
        ensures spelled { AllByRecursion IsRecord (records_for action) }
    {
        a_serve_is_logged();
        a_restart_is_logged();
        entries_move_the_clock();
        self.carry_out(action)
    }

    fn carry_out(&mut self, action: Action) -> Served
        requires room { length (frames (records_for action)) ≤ self.old.room }
        requires actions { self.old.actions < 2 ^ 62 }
        ensures acts { Acts self.old self.new action result }
        ensures spelled { AllByRecursion IsRecord (records_for action) }
    {
        self.actions += 1;
        let Action {
            reply,
            copy,
            step,
            own,
            bytes,
        } = action;
        let time = time_of(&step);
        let records = count_of(&step, &own);
        if records == 0 {
            self.give(&step);
            return Served {
                reply,
                copy,
                time,
                append: Append::Nothing,
            };
        }
        if self.store.append(&bytes).is_err() {
            self.down = Some(self.actions);
            return Served {
                reply: Reply::Refused(Refusal::LogFault),
                copy: Reply::Refused(Refusal::LogFault),
                time,
                append: Append::Failed,
            };
        }
        self.give(&step);
        self.records = self.records.saturating_add(records);
        Served {
            reply,
            copy,
            time,
            append: Append::Took,
        }
    }

    /// The records that the log holds. Nothing changes but the counts of the store. If the load fails, that is an action
    /// of its own, and the actor is down.
    pub fn load(&mut self) -> Result<Vec<LogRecord>, LoadFault>
        requires { self.old.actions < 2 ^ 62 }
        ensures found { IfOk result (λ records. Holds self.old.held records.items) }
        ensures held { self.new.held ≡ self.old.held }
        ensures loaded { OnOk result (Rose self.old.loads self.new.loads) }
        ensures same { OnOk result (IsSame self.old self.new) }
        ensures memory { IsErrOf result LoadFault.Memory → IsSame self.old self.new }
        ensures failed { IsErrOf result LoadFault.Failed → FailsToLoad self.old self.new }
        ensures not_loaded { IsErrOf result LoadFault.Failed → StaysDown self.old self.new }
    {
        a_serve_is_logged();
        a_restart_is_logged();
        entries_move_the_clock();
        self.load_records()
    }

    fn load_records(&mut self) -> Result<Vec<LogRecord>, LoadFault>
        requires { self.old.actions < 2 ^ 62 }
        ensures found { IfOk result (λ records. Holds self.old.held records.items) }
        ensures held { self.new.held ≡ self.old.held }
        ensures loaded { OnOk result (Rose self.old.loads self.new.loads) }
        ensures same { OnOk result (IsSame self.old self.new) }
        ensures memory { IsErrOf result LoadFault.Memory → IsSame self.old self.new }
        ensures failed { IsErrOf result LoadFault.Failed → FailsToLoad self.old self.new }
    {
        bytes_have_one_meaning();
        match replay(&mut self.store, self.alloc) {
            Ok(records) => Ok(records),
            Err(ReplayRefusal::LogFault) => {
                self.actions += 1;
                if self.down.is_none() {
                    self.down = Some(self.actions);
                }
                Err(LoadFault::Failed)
            }
            Err(ReplayRefusal::Memory) => Err(LoadFault::Memory),
            Err(ReplayRefusal::LogBad { .. }) => unreachable!(),
        }
    }

    /// The actor starts again from these records, which its log holds. The answer is whether the log had kept the piece of
    /// an append that failed. It takes no memory.
    pub fn restart(&mut self, records: &[LogRecord]) -> bool
        requires { self.old.actions < 2 ^ 62 }
        ensures held { self.new.held ≡ self.old.held }
        ensures starts { StartsFrom self.old self.new result records.now }
        ensures restarts { Restarts self.old self.new result records.now }
    {
        bytes_have_one_meaning();
        a_restart_is_logged();
        a_status_tablet_is_replayed();
        entries_move_the_clock();
        self.start_from(records)
    }

    fn start_from(&mut self, records: &[LogRecord]) -> bool
        requires { self.old.actions < 2 ^ 62 }
        ensures { StartsFrom self.old self.new result records.now }
    {
        let count = records.len() as u64;
        let kept = self.records < count;
        self.clock.after_restart(lease_in(records));
        self.actions += 1;
        self.down = None;
        self.records = count;
        kept
    }

    /// The time of a step is given.
    fn give(&mut self, step: &Option<Step>)
        ensures { self.new ≡ record self.old { clock = clock_after self.old.clock step.now } }
    {
        if let Some(step) = step {
            self.clock.took(*step);
        }
    }
}

/// The time of a step.
fn time_of(step: &Option<Step>) -> Option<HybridTime>
    ensures { result ≡ time_of step.now }
{
    match step {
        Some(step) => Some(step.time),
        None => None,
    }
}

/// How many records there are to log.
fn count_of(step: &Option<Step>, own: &Option<LogRecord>) -> u64
    ensures { result ≡ length (records_of_step step.now own.now) }
{
    u64::from(lease_of(step).is_some()) + u64::from(own.is_some())
}

/// The end of the last lease among these records.
fn lease_in(records: &[LogRecord]) -> Option<u64>
    ensures { result ≡ lease_in records.now }
{
    let mut end = None;
    for logged in records {
        if let LogRecord::Lease { until } = logged {
            end = Some(*until);
        }
    }
    end
}
