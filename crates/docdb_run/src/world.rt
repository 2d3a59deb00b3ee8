//! What one session does with one tablet, command by command.
ghost use Rattle.std.specs.Prelude.{◌≡◌, ◌≤◌, ◌<◌, ◌+◌, ◌-◌, ◌^◌, ◌++◌, ◌∷◌, [], ℕ, Some, None, min, take, IfOk, OnOk, OnErr};
ghost use Rattle.docdb_run.specs.Form.{IsFormLine};
ghost use Rattle.docdb_run.specs.Course.{at_first, one, exchange, single_entries, single_time, single_told, single_reply, time_given, single_id, after_single, read_entries, read_time, read_window, tablet_time, row_at, after_read, clock_entries, after_clock, entries_of, told_of, course_after};

use crate::entries::{record_all, start, tell};
use crate::exchange::{Exchange, TABLET};
use crate::tablet::{Tablet, earlier, later, least, single_reply, time_given};
use doc_path::Path;
use docdb_base::{Memory, Seq, TryCopy};
use hybrid_time::{HybridTime, TimeRefusal, limit};
use std::alloc::Global;
use std::marker::Model;
use txn_types::{
    Actor, Bytes, Command, Entries, Op, Paths, ReadKind, Reply, Request, Row, Rows, Told,
    ToldRefusal, Trace, TxnId, Window, id_of,
};

/// How far a session and its tablet have come. Contracts see the course.
#[derive(Debug, Drop)]
pub struct World {
    alloc: Global,
    /// The reading of the one clock, in microseconds.
    clock: u64,
    tablet: Tablet,
    /// The greatest time that the session was told.
    session: HybridTime,
    /// The serial number of its last transaction.
    serial: u64,
    /// How many commands it began.
    commands: u32,
}

impl Model for World {
    ghost use Rattle.std.specs.Prelude.{◌≤◌};
    ghost use Rattle.docdb_run.specs.Course.{Course};

    ghost Value = { Course };

    ghost view = { λ w. record { clock = w.clock; tablet = w.tablet.last; versions = w.tablet.versions; session = w.session; serial = w.serial; commands = w.commands } };

    ghost invariant = { λ w. (w.serial ≤ w.commands) × (w.clock ≤ 4000000000000000) };
}

/// The one session.
const SESSION: Actor = Actor::Session(1);

/// The most microseconds by which clocks may differ.
const SKEW: u64 = 500_000;

impl World {
    /// The world before the first command.
    pub fn new(alloc: Global) -> World
        ensures { result ≡ at_first }
    {
        World {
            alloc,
            clock: 1_000_000,
            tablet: Tablet::new(alloc),
            session: HybridTime::ZERO,
            serial: 0,
            commands: 0,
        }
    }

    /// Runs a command: records its entries, and returns what the session is told. If memory runs out, the first of its
    /// entries are recorded, and the world is not to be used again.
    pub fn run(&mut self, line: &Command, trace: &mut Trace) -> Result<Told, Memory>
        requires form { IsFormLine self.old.clock line.now }
        requires room { self.old.commands < 2 ^ 32 - 1 }
        ensures course { OnOk result (self.new ≡ course_after self.old line.now) }
        ensures entries { OnOk result (trace.new.entries ≡ trace.old.entries ++ entries_of self.old line.now) }
        ensures told { IfOk result (λ told. told ≡ told_of self.old line.now) }
        ensures memory { OnErr result ((n : ℕ) × (trace.new.entries ≡ trace.old.entries ++ take n (entries_of self.old line.now))) }
    {
        let (entries, told) = self.step(line)?;
        record_all(trace, entries)?;
        Ok(told)
    }

    /// Runs a command, and returns its entries and what the session is told.
    fn step(&mut self, line: &Command) -> Result<(Entries, Told), Memory>
        requires form { IsFormLine self.old.clock line.now }
        requires room { self.old.commands < 2 ^ 32 - 1 }
        ensures course { OnOk result (self.new ≡ course_after self.old line.now) }
        ensures entries { IfOk result (λ r. r.0 ≡ entries_of self.old line.now) }
        ensures told { IfOk result (λ r. r.1 ≡ told_of self.old line.now) }
    {
        match line {
            Command::SinglePut { place, value, .. } => self.single(line, &place.path, value),
            Command::Read { places, .. } => match places.items() {
                [place] => self.read(line, &place.path),
                _ => unreachable!(),
            },
            Command::Clock { micros, .. } => self.set_clock(line, *micros),
            _ => unreachable!(),
        }
    }

    /// A single write, which the tablet gives its next time.
    fn single(
        &mut self,
        line: &Command,
        path: &Path,
        value: &Bytes,
    ) -> Result<(Entries, Told), Memory>
        requires { self.old.commands < 2 ^ 32 - 1 }
        ensures course { OnOk result (self.new ≡ after_single self.old path.now value.now (single_time self.old)) }
        ensures entries { IfOk result (λ r. r.0 ≡ single_entries self.old line.now path.now value.now (single_time self.old)) }
        ensures told { IfOk result (λ r. r.1 ≡ single_told (single_id self.old) (single_time self.old)) }
    {
        let time = self.tablet.time_for(self.session, self.clock);
        let entries = self.single_entries(line, path, value, &time)?;
        let told = single_told(self.next_id(), &time);
        self.take_single(path, value, &time)?;
        Ok((entries, told))
    }

    /// The entries of a single write that is given this time, or refused it.
    fn single_entries(
        &self,
        line: &Command,
        path: &Path,
        value: &Bytes,
        time: &Result<HybridTime, TimeRefusal>,
    ) -> Result<Entries, Memory>
        requires { self.now.commands < 2 ^ 32 - 1 }
        ensures { IfOk result (λ entries. entries ≡ single_entries self.now line.now path.now value.now time.now) }
    {
        let number = self.commands + 1;
        let mut entries = start(self.alloc, SESSION, number, line.try_copy(self.alloc)?)?;
        self.ask_others(path, &mut entries)?;
        self.ask_single(path, value, time, &mut entries)?;
        tell(
            &mut entries,
            SESSION,
            number,
            single_told(self.next_id(), time),
        )?;
        Ok(entries)
    }

    /// Puts the first exchange of a single write at the end: it finds no other transaction.
    fn ask_others(&self, path: &Path, entries: &mut Entries) -> Result<(), Memory>
        requires { self.now.commands < 2 ^ 32 - 1 }
        ensures { OnOk result (entries.new ≡ entries.old ++ exchange one None None (Request.ListWrite (single_id self.now) path.now) (Reply.Others []) None) }
    {
        let listing = Exchange {
            mover: SESSION,
            own: None,
            served: None,
            asked: Request::ListWrite {
                txn: self.next_id(),
                path: path.try_copy(self.alloc)?,
            },
            reply: Reply::Others(Seq::new(self.alloc)),
            time: None,
        };
        listing.record(self.alloc, entries)
    }

    /// Puts the second exchange of a single write at the end: it is given this time, or refused it.
    fn ask_single(
        &self,
        path: &Path,
        value: &Bytes,
        time: &Result<HybridTime, TimeRefusal>,
        entries: &mut Entries,
    ) -> Result<(), Memory>
        requires { self.now.commands < 2 ^ 32 - 1 }
        ensures { OnOk result (entries.new ≡ entries.old ++ exchange one None (Some self.now.clock) (Request.Single (single_id self.now) path.now (Op.Put value.now) self.now.session []) (single_reply time.now) (time_given time.now)) }
    {
        let writing = Exchange {
            mover: SESSION,
            own: None,
            served: Some(self.clock),
            asked: Request::Single {
                txn: self.next_id(),
                path: path.try_copy(self.alloc)?,
                op: Op::Put(value.try_copy(self.alloc)?),
                seen: self.session,
                fates: Seq::new(self.alloc),
            },
            reply: single_reply(time),
            time: time_given(time),
        };
        writing.record(self.alloc, entries)
    }

    /// Takes in a single write that is given this time, or refused it.
    fn take_single(
        &mut self,
        path: &Path,
        value: &Bytes,
        time: &Result<HybridTime, TimeRefusal>,
    ) -> Result<(), Memory>
        requires { self.old.commands < 2 ^ 32 - 1 }
        ensures { OnOk result (self.new ≡ after_single self.old path.now value.now time.now) }
    {
        if let Ok(at) = time {
            self.tablet.commit(self.alloc, path, value, *at)?;
            self.session = later(self.session, *at);
        }
        self.serial += 1;
        self.commands += 1;
        Ok(())
    }

    /// The id of the session's next transaction.
    fn next_id(&self) -> TxnId
        requires { self.now.commands < 2 ^ 32 - 1 }
        ensures { result ≡ single_id self.now }
    {
        id_of(1, self.serial + 1)
    }

    /// A read of one path.
    fn read(&mut self, line: &Command, path: &Path) -> Result<(Entries, Told), Memory>
        requires { self.old.commands < 2 ^ 32 - 1 }
        ensures course { OnOk result (self.new ≡ after_read self.old) }
        ensures entries { IfOk result (λ r. r.0 ≡ read_entries self.old line.now path.now) }
        ensures told { IfOk result (λ r. r.1 ≡ Told.Values (read_time self.old) 0 (row_at self.old path.now)) }
    {
        let (entries, told) = self.read_entries(line, path)?;
        self.take_read();
        Ok((entries, told))
    }

    /// The entries of a read of one path, and what is told of it.
    fn read_entries(&self, line: &Command, path: &Path) -> Result<(Entries, Told), Memory>
        requires { self.now.commands < 2 ^ 32 - 1 }
        ensures entries { IfOk result (λ r. r.0 ≡ read_entries self.now line.now path.now) }
        ensures told { IfOk result (λ r. r.1 ≡ Told.Values (read_time self.now) 0 (row_at self.now path.now)) }
    {
        let alloc = self.alloc;
        let (at, rows) = (self.read_time(), self.rows(path)?);
        let mut entries = start(alloc, SESSION, self.commands + 1, line.try_copy(alloc)?)?;
        self.ask_list(path, &mut entries)?;
        self.ask_values(path, rows.try_copy(alloc)?, &mut entries)?;
        let told = Told::Values {
            at,
            restarts: 0,
            rows,
        };
        tell(
            &mut entries,
            SESSION,
            self.commands + 1,
            told.try_copy(alloc)?,
        )?;
        Ok((entries, told))
    }

    /// Puts the first exchange of a read at the end: it fixes the local limit.
    fn ask_list(&self, path: &Path, entries: &mut Entries) -> Result<(), Memory>
        ensures { OnOk result (entries.new ≡ entries.old ++ exchange one (Some self.now.clock) (Some self.now.clock) (Request.ListRead None (path.now ∷ []) (read_time self.now) (read_window self.now) None) (Reply.Listed (min (tablet_time self.now) (read_window self.now)) []) (Some (tablet_time self.now))) }
    {
        let (t, g, time) = (self.read_time(), self.read_window(), self.tablet_time());
        let listing = Exchange {
            mover: SESSION,
            own: Some(self.clock),
            served: Some(self.clock),
            asked: Request::ListRead {
                own: None,
                paths: one_path(self.alloc, path)?,
                t,
                g,
                limit: None,
            },
            reply: Reply::Listed {
                limit: earlier(time, g),
                others: Seq::new(self.alloc),
            },
            time: Some(time),
        };
        listing.record(self.alloc, entries)
    }

    /// Puts the second exchange of a read at the end: it answers these rows.
    fn ask_values(&self, path: &Path, rows: Rows, entries: &mut Entries) -> Result<(), Memory>
        ensures { let limit = min (tablet_time self.now) (read_window self.now) in OnOk result (entries.new ≡ entries.old ++ exchange one None None (Request.Collect None ReadKind.Get (path.now ∷ []) (read_time self.now) (Some (record { g = read_window self.now; limit = limit })) []) (Reply.Collected rows) None) }
    {
        let (t, g) = (self.read_time(), self.read_window());
        let limit = earlier(self.tablet_time(), g);
        let collecting = Exchange {
            mover: SESSION,
            own: None,
            served: None,
            asked: Request::Collect {
                own: None,
                kind: ReadKind::Get,
                paths: one_path(self.alloc, path)?,
                t,
                window: Some(Window { g, limit }),
                fates: Seq::new(self.alloc),
            },
            reply: Reply::Collected(rows),
            time: None,
        };
        collecting.record(self.alloc, entries)
    }

    /// The row at a path.
    fn rows(&self, path: &Path) -> Result<Rows, Memory>
        ensures { IfOk result (λ rows. rows ≡ row_at self.now path.now) }
    {
        let row = Row {
            path: path.try_copy(self.alloc)?,
            value: self.tablet.value_at(self.alloc, path)?,
        };
        let mut rows = Seq::new(self.alloc);
        rows.push(row)?;
        Ok(rows)
    }

    /// The time of the session's next read.
    fn read_time(&self) -> HybridTime
        ensures { result ≡ read_time self.now }
    {
        least(self.session, HybridTime::ZERO, self.clock)
    }

    /// The end of the window of the session's next read.
    fn read_window(&self) -> HybridTime
        ensures { result ≡ read_window self.now }
    {
        later(self.read_time(), limit(self.clock, SKEW))
    }

    /// The time that the tablet takes for the session's next read.
    fn tablet_time(&self) -> HybridTime
        ensures { result ≡ tablet_time self.now }
    {
        least(self.tablet.last, self.read_time(), self.clock)
    }

    /// Takes in a read.
    fn take_read(&mut self)
        requires { self.old.commands < 2 ^ 32 - 1 }
        ensures { self.new ≡ after_read self.old }
    {
        let (t, time) = (self.read_time(), self.tablet_time());
        self.tablet.last = time;
        self.session = t;
        self.commands += 1;
    }

    /// Sets the clock, in microseconds.
    fn set_clock(&mut self, line: &Command, micros: u64) -> Result<(Entries, Told), Memory>
        requires room { self.old.commands < 2 ^ 32 - 1 }
        requires micros { micros ≤ 4000000000000000 }
        ensures course { OnOk result (self.new ≡ after_clock self.old micros) }
        ensures entries { IfOk result (λ r. r.0 ≡ clock_entries self.old line.now) }
        ensures told { IfOk result (λ r. r.1 ≡ Told.Set) }
    {
        let line = line.try_copy(self.alloc)?;
        let mut entries = start(self.alloc, SESSION, self.commands + 1, line)?;
        tell(&mut entries, SESSION, self.commands + 1, Told::Set)?;
        self.clock = micros;
        self.commands += 1;
        Ok((entries, Told::Set))
    }
}

/// What a session is told of a single write.
fn single_told(txn: TxnId, time: &Result<HybridTime, TimeRefusal>) -> Told
    ensures { result ≡ single_told txn time.now }
{
    let actor = TABLET;
    match time {
        Ok(at) => Told::Committed { txn, at: *at },
        Err(TimeRefusal::ClockFull { at }) => {
            Told::Refused(ToldRefusal::ClockFull { actor, at: *at })
        }
        Err(TimeRefusal::ClockRange { reading }) => {
            let reading = *reading;
            Told::Refused(ToldRefusal::ClockRange { actor, reading })
        }
    }
}

/// The list of one path.
fn one_path(alloc: Global, path: &Path) -> Result<Paths, Memory>
    ensures { IfOk result (λ paths. paths ≡ path.now ∷ []) }
{
    let mut paths = Seq::new(alloc);
    paths.push(path.try_copy(alloc)?)?;
    Ok(paths)
}
