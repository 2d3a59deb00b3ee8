//! A status tablet.
ghost use Rattle.std.specs.Prelude.{◌≡◌, ◌≤◌, ◌<◌, ◌^◌, [], Some, None, length, IsTrue, OnErr, IfOk, IsErrOf};
ghost use Rattle.txn_data.specs.declared.request.Request.TheVariants as request;
ghost use Rattle.safe_time.specs.ActorClock.{at_first};
ghost use Rattle.leased_log.specs.Acts.{SameCounts};
ghost use Rattle.status_tablet.specs.Stands.{Stands};
ghost use Rattle.status_tablet.specs.Decisions.{StaysItself, ServesBy, Performs, CarriesOut, IsDone, IsUndone, is_spelled};
ghost use Rattle.status_tablet.specs.Restarts.{IfRestarted, IsRebuilt, StartsAgain, StaysUnloaded};

use crate::status_decision::StatusDecision;
use crate::txn_records::TxnRecords;
use docdb_base::Memory;
use docdb_outside::{LoadFault, LogStore};
use hybrid_time::HybridTime;
use leased_log::{LeasedLog, log_fault, out_of_memory, restarted, the_same_log_stands};
use std::alloc::Global;
use std::marker::Model;
use tablet_log::{a_serve_is_logged, a_status_tablet_is_replayed};
use txn_types::{Actor, Isolation, Served, Tablets, TxnId};

/// A status tablet over a log store.
#[derive(Drop)]
pub struct StatusTablet<L: LogStore> {
    pub(crate) alloc: Global,
    pub(crate) status: u32,
    pub(crate) log: LeasedLog<L>,
    pub(crate) records: TxnRecords,
}

impl<L: LogStore> Model for StatusTablet<L> {
    ghost use Rattle.status_tablet.specs.Stands.{StatusState};

    ghost Value = { StatusState };

    ghost view = { λ s. record { status = s.status; log = s.log; records = s.records.map.entries } };
}

impl<L: LogStore> StatusTablet<L> {
    /// The status tablet with this number, on an empty log. Its leases last `lease_us` microseconds, 1 to 60,000,000. It
    /// takes no memory.
    pub fn open(alloc: Global, status: u32, lease_us: u64, log: L) -> StatusTablet<L>
        requires lease { lease_us ≤ 60000000 }
        requires empty { L.held log ≡ [] }
        ensures status { result.status ≡ status }
        ensures log { result.log ≡ record {
          held = L.held log;
          faults = L.faults log;
          loads = L.loads log;
          room = L.room log;
          clock = at_first lease_us;
          actions = 0;
          down = None;
          records = 0;
        } }
        ensures stands { Stands result [] (L.faults log) [] }
    {
        StatusTablet {
            alloc,
            status,
            log: LeasedLog::open(alloc, lease_us, log),
            records: TxnRecords::new(alloc),
        }
    }

    /// Its log store. It takes no memory.
    pub fn into_log(self) -> L
        ensures held { L.held result ≡ self.log.held }
        ensures faults { L.faults result ≡ self.log.faults }
        ensures loads { L.loads result ≡ self.log.loads }
        ensures room { L.room result ≡ self.log.room }
    {
        let StatusTablet { log, .. } = self;
        log.into_store()
    }

    /// Makes a record of a transaction.
    pub fn begin(&mut self, _from: Actor, txn: TxnId, isolation: Isolation, priority: u32) -> Served
        requires room { self.old.log.actions < 2 ^ 62 }
        ensures stays { StaysItself self.old self.new result }
        ensures serves { ServesBy self.old self.new _from None (request.Begin txn isolation priority) result }
    {
        let decided = self.decide_begin(txn, isolation, priority);
        self.perform(decided)
    }

    /// Tells what became of a transaction, at a time that is not below `t`; `reading` is in microseconds.
    pub fn ask(&mut self, _from: Actor, txn: TxnId, t: HybridTime, reading: u64) -> Served
        requires room { self.old.log.actions < 2 ^ 62 }
        ensures stays { StaysItself self.old self.new result }
        ensures serves { ServesBy self.old self.new _from (Some reading) (request.AskFate txn t) result }
    {
        let decided = self.decide_ask(txn, t, reading);
        self.perform(decided)
    }

    /// Aborts a pending transaction of a lower priority than that of `by`.
    pub fn resolve(&mut self, _from: Actor, txn: TxnId, by: TxnId, priority: u32) -> Served
        requires room { self.old.log.actions < 2 ^ 62 }
        ensures stays { StaysItself self.old self.new result }
        ensures serves { ServesBy self.old self.new _from None (request.Resolve txn by priority) result }
    {
        let decided = self.decide_resolve(txn, by, priority);
        self.perform(decided)
    }

    /// Commits a pending transaction above `floor`; these tablets accepted its writes. `reading` is in microseconds.
    pub fn commit(
        &mut self,
        _from: Actor,
        txn: TxnId,
        floor: HybridTime,
        tablets: &Tablets,
        reading: u64,
    ) -> Served
        requires tablets { length tablets.now ≤ 64 }
        requires room { self.old.log.actions < 2 ^ 62 }
        ensures stays { StaysItself self.old self.new result }
        ensures serves { ServesBy self.old self.new _from (Some reading) (request.Commit txn floor tablets.now) result }
    {
        match self.decide_commit(txn, floor, tablets, reading) {
            Ok(decided) => self.perform(decided),
            Err(_) => out_of_memory(),
        }
    }

    /// Aborts a transaction for its owner, or tells when it committed.
    pub fn abort(&mut self, _from: Actor, txn: TxnId) -> Served
        requires room { self.old.log.actions < 2 ^ 62 }
        ensures stays { StaysItself self.old self.new result }
        ensures serves { ServesBy self.old self.new _from None (request.Abort txn) result }
    {
        let decided = self.decide_abort(txn);
        self.perform(decided)
    }

    /// A tablet has applied a transaction.
    pub fn applied(&mut self, _from: Actor, txn: TxnId, tablet: u32) -> Served
        requires room { self.old.log.actions < 2 ^ 62 }
        ensures stays { StaysItself self.old self.new result }
        ensures serves { ServesBy self.old self.new _from None (request.Applied txn tablet) result }
    {
        let decided = self.decide_applied(txn, tablet);
        self.perform(decided)
    }

    /// Loads its log, and starts again from what it holds.
    pub fn restart(&mut self, _from: Actor) -> Served
        requires room { self.old.log.actions < 2 ^ 62 }
        ensures stays { StaysItself self.old self.new result }
        ensures serves { ServesBy self.old self.new _from None request.Restart result }
        ensures rebuilt { IfRestarted result.reply (IsRebuilt self.old self.new) }
    {
        the_same_log_stands();
        a_status_tablet_is_replayed();
        match self.try_to_restart() {
            Ok(kept) => restarted(kept),
            Err(LoadFault::Failed) => log_fault(),
            Err(LoadFault::Memory) => out_of_memory(),
        }
    }

    /// Whether its log had kept a piece that failed.
    fn try_to_restart(&mut self) -> Result<bool, LoadFault>
        requires room { self.old.log.actions < 2 ^ 62 }
        ensures done { IfOk result (λ kept. StartsAgain self.old self.new kept) }
        ensures failed { IsErrOf result LoadFault.Failed → StaysUnloaded self.old self.new }
        ensures memory { IsErrOf result LoadFault.Memory → IsUndone self.old self.new }
    {
        let records = match self.log.load() {
            Ok(records) => records,
            Err(fault) => return Err(fault),
        };
        let Ok(rebuilt) = TxnRecords::replayed(self.alloc, &records) else {
            return Err(LoadFault::Memory);
        };
        self.records = rebuilt;
        Ok(self.log.restart(&records))
    }

    /// Serves a request by what its table decides while the status tablet is up. While it is down it refuses.
    fn perform(&mut self, decided: StatusDecision) -> Served
        requires room { self.old.log.actions < 2 ^ 62 }
        requires spelled { IsTrue (is_spelled decided.decision.own) }
        ensures stays { StaysItself self.old self.new result }
        ensures performs { Performs self.old self.new decided result }
    {
        match self.log.down() {
            Some(since) => self.carry_out(StatusDecision::down(since)),
            None => self.carry_out(decided),
        }
    }

    /// Does what was decided. If memory runs out, all is as before.
    fn carry_out(&mut self, decided: StatusDecision) -> Served
        requires room { self.old.log.actions < 2 ^ 62 }
        requires spelled { IsTrue (is_spelled decided.decision.own) }
        ensures stays { StaysItself self.old self.new result }
        ensures carries_out { CarriesOut self.old self.new decided result }
    {
        the_same_log_stands();
        a_serve_is_logged();
        a_status_tablet_is_replayed();
        match self.try_to_carry_out(decided) {
            Ok(served) => served,
            Err(_) => out_of_memory(),
        }
    }

    fn try_to_carry_out(&mut self, decided: StatusDecision) -> Result<Served, Memory>
        requires room { self.old.log.actions < 2 ^ 62 }
        requires spelled { IsTrue (is_spelled decided.decision.own) }
        ensures done { IfOk result (λ served. IsDone self.old self.new decided served) }
        ensures memory { OnErr result (IsUndone self.old self.new) }
        ensures counts { OnErr result (SameCounts self.old.log self.new.log) }
    {
        let StatusDecision { decision, mark } = decided;
        let action = self.log.ready(decision)?;
        self.records.take_in(action.own(), mark)?;
        Ok(self.log.act(action))
    }
}
