//! A tablet.
ghost use Rattle.std.specs.Prelude.{◌≡◌, ◌&&◌, ◌≤◌, ◌<◌, ◌^◌, List, [], Some, None, IsTrue, OnOk, OnErr, IfOk, IfErr, IfSome, IsErrOf, option_copied};
ghost use Rattle.std.specs.List.{All};
ghost use Rattle.txn_data.specs.declared.request.Request.TheVariants as request;
ghost use Rattle.txn_data.specs.declared.version.Version.{Version};
ghost use Rattle.txn_types.specs.Tablet.{Intent};
ghost use Rattle.log_record.specs.Spelling.{is_path, is_op};
ghost use Rattle.safe_time.specs.ActorClock.{at_first};
ghost use Rattle.tablet_core.specs.Stands.{Stands};
ghost use Rattle.leased_log.specs.Acts.{SameCounts};
ghost use Rattle.tablet_records.specs.Keeps.{Keeps, PathFits};
ghost use Rattle.tablet_core.specs.Decisions.{CarriesOut, IfRestarted, IsDone, IsLoggable, IsUndecided, IsUndone, Performs, ServesBy, StaysItself, intents_with, versions_with};
ghost use Rattle.tablet_core.specs.Restarts.{IsRebuilt, StartsAgain, StaysUnloaded};

use crate::undecided::Undecided;
use doc_path::Path;
use docdb_base::Memory;
use docdb_outside::{LoadFault, LogStore};
use hybrid_time::HybridTime;
use leased_log::{Decision, LeasedLog, log_fault, out_of_memory, restarted, the_same_log_stands};
use log_record::LogRecord;
use regular_records::Versions;
use std::alloc::Global;
use std::marker::Model;
use tablet_log::{a_tablet_is_replayed, bytes_have_one_meaning};
use tablet_records::TabletRecords;
use txn_types::{Actor, Fates, Meta, Op, Paths, ReadKind, Served, TxnId, Window};

/// A tablet over versions and a log store. Each path in a record that its store holds fits the versions, so that a restart can
/// take in what it loads.
#[derive(Drop)]
pub struct TabletCore<V: Versions, L: LogStore> {
    pub(crate) alloc: Global,
    pub(crate) tablet: u32,
    pub(crate) log: LeasedLog<L>,
    pub(crate) records: TabletRecords<V>,
}

impl<V: Versions, L: LogStore> Model for TabletCore<V, L> {
    ghost use Rattle.tablet_core.specs.Stands.{CoreState};
    ghost use Rattle.tablet_core.specs.Fitting.{HoldsFitting};
    ghost use Rattle.std.specs.Coded.{codes};
    ghost use Rattle.tablet_records.specs.declared.fitting_intents.FittingIntents as intents;

    ghost Value = { CoreState V };

    ghost coded = { Prim.hlevel (codes, intents.the_code V V.code) };

    ghost view = { λ s. record { tablet = s.tablet; log = s.log; records = s.records } };

    ghost invariant = { λ s. HoldsFitting V.fits s.log.held };
}

impl<V: Versions + Drop, L: LogStore> TabletCore<V, L> {
    /// The tablet with this number, on an empty set of versions and an empty log. Its leases last `lease_us` microseconds, 1
    /// to 60,000,000. It takes no memory.
    pub fn open(alloc: Global, tablet: u32, lease_us: u64, versions: V, log: L) -> TabletCore<V, L>
        requires lease { lease_us ≤ 60000000 }
        requires none { V.holds versions [] }
        requires empty { L.held log ≡ [] }
        ensures tablet { result.tablet ≡ tablet }
        ensures log { result.log ≡ record {
          held = L.held log;
          faults = L.faults log;
          loads = L.loads log;
          room = L.room log;
          clock = at_first lease_us;
          actions = 0;
          down = None;
          records = 0;
        } }
        ensures stands { Stands V.holds result [] (L.faults log) [] }
    {
        TabletCore {
            alloc,
            tablet,
            log: LeasedLog::open(alloc, lease_us, log),
            records: TabletRecords::new(alloc, versions),
        }
    }

    /// Its log store. It takes no memory.
    pub fn into_log(self) -> L
        ensures held { L.held result ≡ self.log.held }
        ensures faults { L.faults result ≡ self.log.faults }
        ensures loads { L.loads result ≡ self.log.loads }
        ensures room { L.room result ≡ self.log.room }
    {
        let TabletCore { log, .. } = self;
        log.into_store()
    }

    /// Tells the other transactions that a write of `txn` at `path` may have to wait for.
    pub fn list_write(&mut self, _from: Actor, txn: TxnId, path: &Path) -> Served
        requires room { self.old.log.actions < 2 ^ 62 }
        ensures itself { StaysItself self.old self.new result }
        ensures serves { ServesBy V.holds self.old self.new _from None (request.ListWrite txn path.now) result }
    {
        let decided = self.decide_list_write(txn, path);
        self.perform(decided)
    }

    /// Makes a write of a transaction provisional, the `number`-th of it, whose read time is `read`, at a time above `seen`;
    /// `fates` are what is known of other transactions, and `reading` is in microseconds.
    pub fn write(
        &mut self,
        _from: Actor,
        meta: &Meta,
        number: u32,
        path: &Path,
        op: &Op,
        read: HybridTime,
        seen: HybridTime,
        fates: &Fates,
        reading: u64,
    ) -> Served
        requires spelled { IsTrue (is_path path.now && is_op op.now) }
        requires fits { V.fits path.now }
        requires room { self.old.log.actions < 2 ^ 62 }
        ensures itself { StaysItself self.old self.new result }
        ensures serves { ServesBy V.holds self.old self.new _from (Some reading) (request.Write meta.now number path.now op.now read seen fates.now) result }
    {
        let decided = self.decide_write(meta, number, path, op, read, seen, fates, reading);
        self.perform(decided)
    }

    /// Commits a write alone, at a time above `seen` and above the commit times that `fates` tell; `reading` is in
    /// microseconds.
    pub fn single(
        &mut self,
        _from: Actor,
        txn: TxnId,
        path: &Path,
        op: &Op,
        seen: HybridTime,
        fates: &Fates,
        reading: u64,
    ) -> Served
        requires spelled { IsTrue (is_path path.now && is_op op.now) }
        requires fits { V.fits path.now }
        requires room { self.old.log.actions < 2 ^ 62 }
        ensures itself { StaysItself self.old self.new result }
        ensures serves { ServesBy V.holds self.old self.new _from (Some reading) (request.Single txn path.now op.now seen fates.now) result }
    {
        let decided = self.decide_single(txn, path, op, seen, fates, reading);
        self.perform(decided)
    }

    /// Tells a read of `paths` at `t` its local limit, which is the given one or else not above `g`, and the transactions
    /// that it may have to ask about; `reading` is in microseconds.
    pub fn list_read(
        &mut self,
        _from: Actor,
        own: Option<TxnId>,
        paths: &Paths,
        t: HybridTime,
        g: HybridTime,
        limit: Option<HybridTime>,
        reading: u64,
    ) -> Served
        requires room { self.old.log.actions < 2 ^ 62 }
        ensures itself { StaysItself self.old self.new result }
        ensures serves { ServesBy V.holds self.old self.new _from (Some reading) (request.ListRead own paths.now t g limit) result }
    {
        let decided = self.decide_list_read(own, paths, t, g, limit, reading);
        self.perform(decided)
    }

    /// Tells what a read of `paths` at `t` meets in its window, or else its rows; `fates` are what it was told of other
    /// transactions.
    pub fn collect(
        &mut self,
        _from: Actor,
        own: Option<TxnId>,
        kind: ReadKind,
        paths: &Paths,
        t: HybridTime,
        window: Option<Window>,
        fates: &Fates,
    ) -> Served
        requires fits { All V.fits paths.now }
        requires room { self.old.log.actions < 2 ^ 62 }
        ensures itself { StaysItself self.old self.new result }
        ensures serves { ServesBy V.holds self.old self.new _from None (request.Collect own kind paths.now t window fates.now) result }
    {
        let decided = self.decide_collect(own, kind, paths, t, window, fates);
        self.perform(decided)
    }

    /// Tells all transactions with provisional writes.
    pub fn list_intents(&mut self, _from: Actor) -> Served
        requires room { self.old.log.actions < 2 ^ 62 }
        ensures itself { StaysItself self.old self.new result }
        ensures serves { ServesBy V.holds self.old self.new _from None request.ListIntents result }
    {
        let decided = self.decide_list_intents();
        self.perform(decided)
    }

    /// The provisional writes of a transaction become versions at its commit time `at`; `reading` is in microseconds.
    pub fn apply(&mut self, _from: Actor, txn: TxnId, at: HybridTime, reading: u64) -> Served
        requires room { self.old.log.actions < 2 ^ 62 }
        ensures itself { StaysItself self.old self.new result }
        ensures serves { ServesBy V.holds self.old self.new _from (Some reading) (request.Apply txn at) result }
    {
        let decided = self.decide_apply(txn, at, reading);
        self.perform(decided)
    }

    /// The provisional writes of a transaction go.
    pub fn clean(&mut self, _from: Actor, txn: TxnId) -> Served
        requires room { self.old.log.actions < 2 ^ 62 }
        ensures itself { StaysItself self.old self.new result }
        ensures serves { ServesBy V.holds self.old self.new _from None (request.Clean txn) result }
    {
        let decided = self.decide_clean(txn);
        self.perform(decided)
    }

    /// Loads its log, and starts again from what it holds.
    pub fn restart(&mut self, _from: Actor) -> Served
        requires room { self.old.log.actions < 2 ^ 62 }
        ensures itself { StaysItself self.old self.new result }
        ensures serves { ServesBy V.holds self.old self.new _from None request.Restart result }
        ensures rebuilt { IfRestarted result.reply (IsRebuilt V.holds self.old self.new) }
        ensures held { self.new.log.held ≡ self.old.log.held }
    {
        the_same_log_stands();
        a_tablet_is_replayed();
        match self.try_to_restart() {
            Ok(kept) => restarted(kept),
            Err(LoadFault::Failed) => log_fault(),
            Err(LoadFault::Memory) => out_of_memory(),
        }
    }

    /// Whether its log had kept a piece that failed.
    fn try_to_restart(&mut self) -> Result<bool, LoadFault>
        requires room { self.old.log.actions < 2 ^ 62 }
        ensures done { IfOk result (λ kept. StartsAgain V.holds self.old self.new kept) }
        ensures failed { IsErrOf result LoadFault.Failed → StaysUnloaded self.old self.new }
        ensures memory { IsErrOf result LoadFault.Memory → IsUndone V.holds self.old self.new }
        ensures held { self.new.log.held ≡ self.old.log.held }
    {
        bytes_have_one_meaning();
        let records = match self.log.load() {
            Ok(records) => records,
            Err(fault) => return Err(fault),
        };
        let Ok(rebuilt) = self.records.replayed(&records) else {
            return Err(LoadFault::Memory);
        };
        self.records = rebuilt;
        Ok(self.log.restart(&records))
    }

    /// Does what was decided of a request. While the tablet is down the request is refused. If memory runs out, all is as
    /// before.
    fn perform(&mut self, decided: Result<Decision, Undecided>) -> Served
        requires room { self.old.log.actions < 2 ^ 62 }
        requires loggable { IfOk decided (IsLoggable V.fits) }
        requires undecided { IfErr decided (IsUndecided self.old.log.down) }
        ensures itself { StaysItself self.old self.new result }
        ensures performs { Performs V.holds self.old self.new decided result }
    {
        match decided {
            Ok(decision) => self.carry_out(decision),
            Err(Undecided::Down { since }) => {
                let refused = self.refuse_down(since);
                self.carry_out(refused)
            }
            Err(Undecided::Memory) => out_of_memory(),
        }
    }

    /// Does this. If memory runs out, all is as before.
    fn carry_out(&mut self, decision: Decision) -> Served
        requires room { self.old.log.actions < 2 ^ 62 }
        requires loggable { IsLoggable V.fits decision }
        ensures itself { StaysItself self.old self.new result }
        ensures carries_out { CarriesOut V.holds self.old self.new decision result }
    {
        the_same_log_stands();
        a_tablet_is_replayed();
        match self.try_to_carry_out(decision) {
            Ok(served) => served,
            Err(_) => out_of_memory(),
        }
    }

    fn try_to_carry_out(&mut self, decision: Decision) -> Result<Served, Memory>
        requires room { self.old.log.actions < 2 ^ 62 }
        requires loggable { IsLoggable V.fits decision }
        ensures done { IfOk result (λ served. IsDone V.holds self.old self.new decision served) }
        ensures memory { OnErr result (IsUndone V.holds self.old self.new) }
        ensures counts { OnErr result (SameCounts self.old.log self.new.log) }
    {
        let action = self.log.ready(decision)?;
        take_in(&mut self.records, action.own())?;
        Ok(self.log.act(action))
    }
}

// Takes the record of an action's own into the contents, if there is one. If memory runs out, they are as before.
fn take_in<V: Versions + Drop>(
    records: &mut TabletRecords<V>,
    own: Option<&LogRecord>,
) -> Result<(), Memory>
    requires { IfSome (option_copied own) (PathFits V.fits) }
    ensures ok { (ps : List Intent) (vs : List Version) → Keeps V.holds records.old ps vs → OnOk result (Keeps V.holds records.new (intents_with (option_copied own.entry) ps) (versions_with (option_copied own.entry) vs ps)) }
    ensures memory { (ps : List Intent) (vs : List Version) → Keeps V.holds records.old ps vs → OnErr result (Keeps V.holds records.new ps vs) }
{
    match own {
        Some(own) => records.apply(own),
        None => Ok(()),
    }
}
