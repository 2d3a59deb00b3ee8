//! A request of a mover, its service by the tablet, and the reply.
ghost use Rattle.std.specs.Prelude.{◌≡◌, ◌++◌, None, IfOk, OnOk};
ghost use Rattle.docdb_run.specs.Course.{by, t0, exchange};

use crate::entries::entry;
use docdb_base::{Memory, TryCopy};
use hybrid_time::HybridTime;
use std::alloc::Global;
use txn_types::{Actor, Append, Entries, Entry, Event, Reply, Request};

/// The one tablet.
pub const TABLET: Actor = Actor::Tablet(0);

/// A request of a mover, its service by the tablet, and the reply.
#[derive(Debug, Drop)]
pub struct Exchange {
    pub mover: Actor,
    /// The reading that the mover took to ask, in microseconds.
    pub own: Option<u64>,
    /// The reading that the tablet took to serve it, in microseconds.
    pub served: Option<u64>,
    pub asked: Request,
    pub reply: Reply,
    /// The time that the tablet gave it.
    pub time: Option<HybridTime>,
}

impl Exchange {
    /// Puts its three entries at the end.
    pub fn record(&self, alloc: Global, entries: &mut Entries) -> Result<(), Memory>
        ensures { OnOk result (entries.new ≡ entries.old ++ exchange self.now.mover self.now.own self.now.served self.now.asked self.now.reply self.now.time) }
    {
        entries.push(self.ask(alloc)?)?;
        entries.push(self.serve(alloc)?)?;
        entries.push(self.hear(alloc)?)
    }

    fn ask(&self, alloc: Global) -> Result<Entry, Memory>
        ensures { IfOk result (λ e. e ≡ by self.now.mover self.now.own (Event.Ask t0 self.now.asked)) }
    {
        let request = self.asked.try_copy(alloc)?;
        let to = TABLET;
        Ok(entry(self.mover, self.own, Event::Ask { to, request }))
    }

    fn serve(&self, alloc: Global) -> Result<Entry, Memory>
        ensures { IfOk result (λ e. e ≡ by t0 self.now.served (Event.Serve self.now.mover self.now.asked self.now.reply self.now.time Append.Nothing)) }
    {
        let serve = Event::Serve {
            from: self.mover,
            request: self.asked.try_copy(alloc)?,
            reply: self.reply.try_copy(alloc)?,
            time: self.time,
            append: Append::Nothing,
        };
        Ok(entry(TABLET, self.served, serve))
    }

    fn hear(&self, alloc: Global) -> Result<Entry, Memory>
        ensures { IfOk result (λ e. e ≡ by self.now.mover None (Event.Hear t0 self.now.reply)) }
    {
        let reply = self.reply.try_copy(alloc)?;
        let from = TABLET;
        Ok(entry(self.mover, None, Event::Hear { from, reply }))
    }
}
