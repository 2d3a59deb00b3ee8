//! A read.
ghost use Rattle.std.specs.Prelude.{◌≡◌, ℕ, List, ◌≤◌, ◌<◌, ◌+◌, ◌^◌, true, false, length, [], ◌∷◌, drop, IsOk, IfOk, OnOk, OnErr, IsSome, IfSome, IfNone};
ghost use Rattle.txn_types.specs.Program.{heard, turn};
ghost use Rattle.txn_types.specs.ReadProgram.{tablets_of as tablets_at, read_program, read_done, ask_fates, fixed, restarted, met_then};
ghost use Rattle.txn_types.specs.Run.{is_settling};
ghost use Rattle.read_plan.specs.Stage.{is_asking, is_listing, round, limited, collected, collecting, waits, takes_room};

use crate::places::{copies, fix_limit, limit_of, paths_on, tablets_of};
use crate::read_turn::ReadTurn;
use crate::rows::all_rows;
use crate::stage::{Stage, stopped};
use crate::tablet_rows::TabletRows;
use doc_path::Path;
use docdb_base::{Memory, Seq, TryCopy};
use hybrid_time::HybridTime;
use std::alloc::Global;
use std::mem;
use txn_types::{
    Actor, FateOf, Fates, Found, Founds, Limits, Place, Places, ReadEnd, ReadKind, ReadWhat, Reply,
    Request, TabletLimit, Tablets, TxnId, Window, told_refusal,
};

/// A read of one to sixteen places. Contracts see the program that is left of it, `rest`.
#[derive(Debug, Drop)]
pub struct ReadPlan {
    alloc: Global,
    own: Option<TxnId>,
    kind: ReadKind,
    places: Places,
    g: HybridTime,
    strict: bool,
    /// The tablets of the places by rising number, and how many of them listed transactions in this round, which is the
    /// first or the second.
    tablets: Tablets,
    visited: usize,
    first: bool,
    t: HybridTime,
    restarts: u32,
    limits: Limits,
    rows: Seq<TabletRows>,
    stage: Stage,
    /// The transactions that the tablet listed, of how many of them the fate is known, and these fates.
    found: Founds,
    known: usize,
    fates: Fates,
    ghost of_places: { tablets ≡ tablets_at places },
    ghost few: { length tablets ≤ 16 },
    ghost within: { visited ≤ length tablets },
    ghost heard_of: { known ≤ length found },
    ghost counted: { first ≡ true → restarts ≤ visited },
    ghost waiting: { first ≡ true → is_asking stage ≡ true → restarts < visited },
    ghost rounds: { first ≡ true → is_listing stage ≡ true → length tablets ≤ visited → restarts ≡ 0 },
}

#[tactic(auto, unfolding(crate::specs::Rest::rest))]
impl ReadPlan {
    ghost use Rattle.read_plan.specs.Rest.{rest, asked, progress, ahead, others, turn_of, is_ask};

    /// A read of these places at the time `t`, in a window up to `g`, which may restart unless it is `strict`. These local
    /// limits are fixed before. `own` is the transaction that it belongs to. It has asked nothing so far.
    pub fn start(
        alloc: Global,
        own: Option<TxnId>,
        kind: ReadKind,
        places: &[Place],
        t: HybridTime,
        g: HybridTime,
        strict: bool,
        limits: &[TabletLimit],
    ) -> Result<ReadPlan, Memory>
        requires { length places.now ≤ 16 }
        ensures { IfOk result (λ plan. rest plan ≡ read_program own kind places.now t g strict limits.now) }
    {
        Ok(ReadPlan {
            alloc,
            own,
            kind,
            places: copies(alloc, places)?,
            g,
            strict,
            tablets: tablets_of(alloc, places)?,
            visited: 0,
            first: true,
            t,
            restarts: 0,
            limits: copies(alloc, limits)?,
            rows: Seq::new(alloc),
            stage: Stage::Listing,
            found: Seq::new(alloc),
            known: 0,
            fates: Seq::new(alloc),
        })
    }

    /// What it asks next, or how it ended. Where it asks, it is as before; once it has told its end, it is over, and nothing
    /// is promised of it. It takes no memory to tell a refusal. If memory runs out, it is as before.
    pub fn next(&mut self) -> Result<ReadTurn, Memory>
        ensures turn { IfOk result (λ next. turn_of next ≡ turn (rest self.old)) }
        ensures asked { IfOk result (λ next. is_ask next ≡ true → self.new ≡ self.old) }
        ensures memory { OnErr result (self.new ≡ self.old) }
        ensures room { OnErr result (takes_room (turn (rest self.old)) ≡ true) }
    {
        match &self.stage {
            Stage::Listing => match self.next_tablet() {
                Some(tablet) => self.list_request(tablet),
                None => self.done(),
            },
            Stage::Asking { tablet, limit } => match self.next_found() {
                Some(found) => Ok(ReadTurn::Ask {
                    to: Actor::Status(found.status),
                    request: Request::AskFate {
                        txn: found.txn,
                        t: self.t,
                    },
                }),
                None => self.collect_request(*tablet, *limit),
            },
            Stage::Restarting { at, path } => {
                let path = path.try_copy(self.alloc)?;
                let what = ReadWhat::Restart { at: *at, path };
                Ok(self.end(what))
            }
            Stage::Refused { by, why } => {
                let what = ReadWhat::Refused(told_refusal(*by, *why));
                Ok(self.end(what))
            }
        }
    }

    /// Goes on with the reply to what it asked. It may take memory until the read was refused, but for no refusal; after want
    /// of memory it is as before. Once it has an end, a reply changes nothing.
    pub fn hear(&mut self, reply: &Reply) -> Result<(), Memory>
        ensures ok { OnOk result (rest self.new ≡ heard (rest self.old) reply.now) }
        ensures memory { OnErr result (self.new ≡ self.old) }
        ensures room { OnErr result (takes_room (turn (rest self.old)) ≡ true) }
        ensures unsettled { OnErr result (is_settling reply.now ≡ false) }

        // Nothing after such a reply takes memory.
        ensures settled { waits (rest self.old) ≡ true → OnOk result (is_settling reply.now ≡ true → takes_room (turn (rest self.new)) ≡ false) }
    {
        match &self.stage {
            Stage::Listing => self.hear_list(reply),
            Stage::Asking { tablet, limit } => {
                let (tablet, limit) = (*tablet, *limit);
                self.hear_asked(tablet, limit, reply)
            }
            Stage::Restarting { .. } | Stage::Refused { .. } => Ok(()),
        }
    }

    // The next tablet to visit in this round.
    fn next_tablet(&self) -> Option<u32>
        ensures some { IfSome result (λ tablet. ahead self.now ≡ tablet ∷ drop (self.now.visited + 1) self.now.tablets) }
        ensures within { IsSome result → self.now.visited < length self.now.tablets }
        ensures none { IfNone result (ahead self.now ≡ []) }
        ensures past { IfNone result (length self.now.tablets ≤ self.now.visited) }
    {
        self.tablets.items().get(self.visited).copied()
    }

    // The next transaction to ask about.
    fn next_found(&self) -> Option<Found>
        ensures some { IfSome result (λ found. others self.now ≡ found ∷ drop (self.now.known + 1) self.now.found) }
        ensures within { IsSome result → self.now.known < length self.now.found }
        ensures none { IfNone result (others self.now ≡ []) }
        ensures few { length self.now.found < 2 ^ 64 }
    {
        self.found.items().get(self.known).copied()
    }

    fn list_request(&self, tablet: u32) -> Result<ReadTurn, Memory>
        ensures turn { (more : List ℕ) → IfOk result (λ next. turn_of next ≡ turn (round self.now.first (asked self.now) (progress self.now) (tablet ∷ more))) }
        ensures asks { IfOk result (λ next. is_ask next ≡ true) }
        ensures room { (more : List ℕ) → takes_room (turn (round self.now.first (asked self.now) (progress self.now) (tablet ∷ more))) ≡ true }
    {
        Ok(ReadTurn::Ask {
            to: Actor::Tablet(tablet),
            request: Request::ListRead {
                own: self.own,
                paths: paths_on(self.alloc, tablet, self.places.items())?,
                t: self.t,
                g: self.g,
                limit: limit_of(tablet, self.limits.items()),
            },
        })
    }

    fn collect_request(&self, tablet: u32, limit: HybridTime) -> Result<ReadTurn, Memory>
        ensures turn { (more : List ℕ) → IfOk result (λ next. turn_of next ≡ turn (collecting self.now.first (asked self.now) (progress self.now) tablet limit more self.now.fates)) }
        ensures asks { IfOk result (λ next. is_ask next ≡ true) }
        ensures room { (more : List ℕ) → OnErr result (takes_room (turn (collecting self.now.first (asked self.now) (progress self.now) tablet limit more self.now.fates)) ≡ true) }
    {
        let window = if self.first {
            Some(Window { g: self.g, limit })
        } else {
            None
        };
        Ok(ReadTurn::Ask {
            to: Actor::Tablet(tablet),
            request: Request::Collect {
                own: self.own,
                kind: self.kind,
                paths: paths_on(self.alloc, tablet, self.places.items())?,
                t: self.t,
                window,
                fates: self.fates.try_copy(self.alloc)?,
            },
        })
    }

    // All tablets were visited.
    fn done(&mut self) -> Result<ReadTurn, Memory>
        ensures turn { IfOk result (λ next. turn_of next ≡ turn (read_done (asked self.old) (progress self.old))) }
        ensures asks { IfOk result (λ next. is_ask next ≡ false) }
        ensures memory { OnErr result (self.new ≡ self.old) }
        ensures room { OnErr result (takes_room (turn (read_done (asked self.old) (progress self.old))) ≡ true) }
    {
        let rows = all_rows(
            self.alloc,
            self.kind,
            self.places.items(),
            self.rows.items(),
        )?;
        Ok(self.end(ReadWhat::Values(rows)))
    }

    // The end of the read, with the limits that it fixed.
    fn end(&mut self, what: ReadWhat) -> ReadTurn
        ensures { result ≡ ReadTurn.Done (record { what = what; t = self.old.t; restarts = self.old.restarts; limits = self.old.limits }) }
    {
        ReadTurn::Done(ReadEnd {
            what,
            t: self.t,
            restarts: self.restarts,
            limits: mem::replace(&mut self.limits, Seq::new(self.alloc)),
        })
    }

    #[tactic(auto, unfolding(crate::specs::Rest::rest, txn_types::specs::ReadProgram::round_one, txn_types::specs::ReadProgram::round_two))]
    fn hear_list(&mut self, reply: &Reply) -> Result<(), Memory>
        requires { self.old.stage ≡ Stage.Listing }
        ensures ok { OnOk result (rest self.new ≡ heard (round self.old.first (asked self.old) (progress self.old) (ahead self.old)) reply.now) }
        ensures memory { OnErr result (self.new ≡ self.old) }
        ensures room { OnErr result (takes_room (turn (round self.old.first (asked self.old) (progress self.old) (ahead self.old))) ≡ true) }
        ensures unsettled { OnErr result (is_settling reply.now ≡ false) }
        ensures settled { waits (rest self.old) ≡ true → OnOk result (is_settling reply.now ≡ true → takes_room (turn (rest self.new)) ≡ false) }
    {
        let Some(tablet) = self.next_tablet() else {
            return Ok(());
        };
        match reply {
            Reply::Listed { limit, others } => self.listed(tablet, *limit, others),
            _ => {
                self.stage = stopped(Actor::Tablet(tablet), reply);
                Ok(())
            }
        }
    }

    // The tablet listed these transactions, and its local limit is this, unless one is fixed.
    fn listed(&mut self, tablet: u32, limit: HybridTime, others: &Founds) -> Result<(), Memory>
        requires stage { self.old.stage ≡ Stage.Listing }
        requires next { self.old.visited < length self.old.tablets }
        ensures ok { OnOk result (rest self.new ≡ ask_fates (limited (progress self.old) tablet limit) others.now [] (collecting self.old.first (asked self.old) (limited (progress self.old) tablet limit) tablet (fixed tablet limit self.old.limits) (drop (self.old.visited + 1) self.old.tablets))) }
        ensures memory { OnErr result (self.new ≡ self.old) }
    {
        let found = others.try_copy(self.alloc)?;
        let limit = fix_limit(&mut self.limits, tablet, limit)?;
        self.found = found;
        self.known = 0;
        self.fates = Seq::new(self.alloc);
        self.visited += 1;
        self.stage = Stage::Asking { tablet, limit };
        Ok(())
    }

    fn hear_asked(&mut self, tablet: u32, limit: HybridTime, reply: &Reply) -> Result<(), Memory>
        requires { self.old.stage ≡ Stage.Asking tablet limit }
        ensures ok { OnOk result (rest self.new ≡ heard (ask_fates (progress self.old) (others self.old) self.old.fates (collecting self.old.first (asked self.old) (progress self.old) tablet limit (ahead self.old))) reply.now) }
        ensures memory { OnErr result (self.new ≡ self.old) }
        ensures room { OnErr result (takes_room (turn (ask_fates (progress self.old) (others self.old) self.old.fates (collecting self.old.first (asked self.old) (progress self.old) tablet limit (ahead self.old)))) ≡ true) }
        ensures unsettled { OnErr result (is_settling reply.now ≡ false) }
        ensures settled { OnOk result (is_settling reply.now ≡ true → takes_room (turn (rest self.new)) ≡ false) }
    {
        match self.next_found() {
            Some(found) => self.hear_fate(tablet, limit, found, reply),
            None => self.hear_rows(tablet, reply),
        }
    }

    #[tactic(auto, unfolding(crate::specs::Rest::rest, txn_types::specs::ReadProgram::ask_fates))]
    fn hear_fate(
        &mut self,
        tablet: u32,
        limit: HybridTime,
        found: Found,
        reply: &Reply,
    ) -> Result<(), Memory>
        requires stage { self.old.stage ≡ Stage.Asking tablet limit }
        requires next { others self.old ≡ found ∷ drop (self.old.known + 1) self.old.found }
        requires within { self.old.known < length self.old.found }
        requires few { length self.old.found < 2 ^ 64 }
        ensures ok { OnOk result (rest self.new ≡ heard (ask_fates (progress self.old) (others self.old) self.old.fates (collecting self.old.first (asked self.old) (progress self.old) tablet limit (ahead self.old))) reply.now) }
        ensures memory { OnErr result (self.new ≡ self.old) }
        ensures room { OnErr result (takes_room (turn (ask_fates (progress self.old) (others self.old) self.old.fates (collecting self.old.first (asked self.old) (progress self.old) tablet limit (ahead self.old)))) ≡ true) }
        ensures unsettled { OnErr result (is_settling reply.now ≡ false) }
        ensures settled { OnOk result (is_settling reply.now ≡ true → takes_room (turn (rest self.new)) ≡ false) }
    {
        match reply {
            Reply::FateIs(fate) => {
                self.fates.push(FateOf {
                    txn: found.txn,
                    fate: *fate,
                })?;
                self.known += 1;
            }
            _ => self.stage = stopped(Actor::Status(found.status), reply),
        }
        Ok(())
    }

    fn hear_rows(&mut self, tablet: u32, reply: &Reply) -> Result<(), Memory>
        requires { is_asking self.old.stage ≡ true }
        ensures ok { OnOk result (rest self.new ≡ collected self.old.first (asked self.old) tablet (ahead self.old) (progress self.old) reply.now) }
        ensures memory { OnErr result (self.new ≡ self.old) }
        ensures room { (limit : ℕ) → OnErr result (takes_room (turn (collecting self.old.first (asked self.old) (progress self.old) tablet limit (ahead self.old) self.old.fates)) ≡ true) }
        ensures unsettled { OnErr result (is_settling reply.now ≡ false) }
        ensures settled { OnOk result (is_settling reply.now ≡ true → takes_room (turn (rest self.new)) ≡ false) }
    {
        match reply {
            Reply::Collected(rows) => {
                let rows = rows.try_copy(self.alloc)?;
                self.rows.push(TabletRows { tablet, rows })?;
                self.go_on(self.t, self.restarts);
                Ok(())
            }
            Reply::Met { at, path } if self.first => self.hear_met(*at, path),
            _ => {
                self.stage = stopped(Actor::Tablet(tablet), reply);
                Ok(())
            }
        }
    }

    fn hear_met(&mut self, at: HybridTime, path: &Path) -> Result<(), Memory>
        requires stage { is_asking self.old.stage ≡ true }
        requires first { self.old.first ≡ true }
        ensures ok { OnOk result (rest self.new ≡ met_then self.old.strict (ReadWhat.Restart at path.now) (progress self.old) (round true (asked self.old) (restarted at (progress self.old)) (ahead self.old))) }
        ensures memory { OnErr result (self.new ≡ self.old) }
    {
        if self.strict {
            let path = path.try_copy(self.alloc)?;
            self.stage = Stage::Restarting { at, path };
        } else {
            self.go_on(at, self.restarts + 1);
        }
        Ok(())
    }

    // Goes on with the next visit, at this time and with so many restarts: in the second round where the first is over and
    // its time rose.
    #[tactic(auto, unfolding(crate::specs::Rest::rest, txn_types::specs::ReadProgram::round_one))]
    fn go_on(&mut self, t: HybridTime, restarts: u32)
        requires counted { self.old.first ≡ true → restarts ≤ self.old.visited }
        ensures { rest self.new ≡ round self.old.first (asked self.old) (record (progress self.old) { t = t; restarts = restarts }) (ahead self.old) }
    {
        self.t = t;
        self.restarts = restarts;
        self.stage = Stage::Listing;
        if self.first && restarts > 0 && self.visited == self.tablets.items().len() {
            self.first = false;
            self.visited = 0;
            self.rows = Seq::new(self.alloc);
        }
    }
}
