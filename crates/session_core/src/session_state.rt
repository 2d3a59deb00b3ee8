//! What a session keeps between two commands.
ghost use Rattle.std.specs.Prelude.{◌≡◌, ℕ, ◌≤◌, ◌<◌, ◌+◌, ◌^◌, true, max, Some, None, OnOk};
ghost use Rattle.txn_data.specs.declared.config.Config.{Config};
ghost use Rattle.txn_types.specs.Run.{limits_of};
ghost use Rattle.txn_types.specs.Session.{Keeps, keeps_after, opened_after, moved_by, time_taken, next_meta as meta_next, serial_after as used_after};
ghost use Rattle.session_core.specs.OpenTxn.{opened_if, written, limits_held, HaveRoom};
ghost use Rattle.session_core.specs.Lines.{writes_line};

use crate::open_txn::{OpenTxn, after_line, begun};
use docdb_base::Memory;
use hybrid_time::HybridTime;
use std::alloc::Global;
use txn_types::{Command, Isolation, Meta, TabletLimit, Told, ToldRefusal, id_of};

/// What a session keeps between two commands, and its names.
#[derive(Drop)]
pub(crate) struct SessionState {
    pub(crate) alloc: Global,
    pub(crate) session: u32,
    /// The status tablet of its transactions.
    pub(crate) status: u32,
    pub(crate) skew_us: u64,
    /// Its time.
    pub(crate) last: HybridTime,
    /// The serial number that it used last.
    pub(crate) serial: u64,
    pub(crate) transaction: Option<OpenTxn>,
    ghost skew: { skew_us ≤ 10000000 },
}

impl SessionState {
    ghost use Rattle.session_core.specs.SessionState.{keeps, IsOf, IsNamed};

    /// The next transaction, with this priority, as provisional records name it.
    pub(crate) fn next_meta(&self, priority: u32) -> Meta
        requires { self.now.serial < 2 ^ 63 }
        ensures { (config : Config) → IsOf config self.now → result ≡ meta_next config self.now.session (keeps self.now) priority }
    {
        Meta {
            txn: id_of(self.session, self.serial + 1),
            status: self.status,
            isolation: Isolation::Snapshot,
            priority,
        }
    }

    /// This command was told this. `reading` stands in its first request, and `limits` are those of a read, as they stand
    /// now.
    pub(crate) fn tell(
        &mut self,
        line: Command,
        reading: Option<u64>,
        limits: Option<Vec<TabletLimit>>,
        told: &Told,
    )
        requires serial { self.old.serial < 2 ^ 63 }
        requires few { written self.old.transaction < 2 ^ 32 }
        requires range { (micros : ℕ) → reading ≡ Some micros → micros ≤ 4000000000000000 }
        requires room { writes_line line ≡ true → HaveRoom self.old.transaction }
        ensures keeps { (config : Config) → IsOf config self.old → keeps self.new ≡ keeps_after config self.old.session (keeps self.old) line reading (limits_held limits (limits_of (keeps self.old).opened)) told.now }
        ensures serial { self.new.serial ≤ self.old.serial + 1 }
        ensures more { written self.new.transaction ≤ written self.old.transaction + 1 }
        ensures named { IsNamed self.old self.new }
    {
        let last = last_after(self.last, reading, told);
        let serial = serial_after(self.serial, &line, told);
        self.transaction = self.left_open(line, reading, limits, told);
        self.last = last;
        self.serial = serial;
    }

    // What is open once this command is told this. It takes out what was.
    fn left_open(
        &mut self,
        line: Command,
        reading: Option<u64>,
        limits: Option<Vec<TabletLimit>>,
        told: &Told,
    ) -> Option<OpenTxn>
        requires serial { self.old.serial < 2 ^ 63 }
        requires few { written self.old.transaction < 2 ^ 32 }
        requires range { (micros : ℕ) → reading ≡ Some micros → micros ≤ 4000000000000000 }
        requires room { writes_line line ≡ true → HaveRoom self.old.transaction }
        ensures value { (config : Config) → IsOf config self.old → opened_if result ≡ opened_after config self.old.session (keeps self.old) line reading (limits_held limits (limits_of (keeps self.old).opened)) told.now (keeps self.old).opened }
        ensures more { written result ≤ written self.old.transaction + 1 }
        ensures time { self.new.last ≡ self.old.last }
        ensures serial { self.new.serial ≡ self.old.serial }
        ensures named { IsNamed self.old self.new }
    {
        let meta = self.next_meta(priority_of(&line));
        match self.transaction.take() {
            None => begun(self.alloc, &line, meta, self.skew_us, reading, told),
            Some(transaction) => after_line(transaction, line, limits, told),
        }
    }

    /// This command was lost at its start, since memory ran out.
    pub(crate) fn lose(&mut self, line: &Command)
        requires { self.old.serial < 2 ^ 63 }
        ensures keeps { (config : Config) → keeps self.new ≡ keeps_after config self.old.session (keeps self.old) line.now None (limits_of (keeps self.old).opened) (Told.Refused ToldRefusal.Memory) }
        ensures serial { self.new.serial ≤ self.old.serial + 1 }
        ensures same { self.new.transaction ≡ self.old.transaction }
        ensures named { IsNamed self.old self.new }
    {
        self.serial = serial_after(self.serial, line, &Told::Refused(ToldRefusal::Memory));
    }

    /// Makes room for the write of a command that writes in the open transaction.
    pub(crate) fn make_room(&mut self, line: &Command) -> Result<(), Memory>
        ensures keeps { keeps self.new ≡ keeps self.old }
        ensures named { IsNamed self.old self.new }
        ensures room { OnOk result (writes_line line.now ≡ true → HaveRoom self.new.transaction) }
    {
        if !matches!(line, Command::Put { .. } | Command::Del { .. }) {
            return Ok(());
        }
        match &mut self.transaction {
            Some(transaction) => transaction.own_writes.make_room(),
            None => Ok(()),
        }
    }
}

/// The priority that a begin has.
fn priority_of(line: &Command) -> u32
    ensures { (priority : ℕ) → line.now ≡ Command.Begin priority → result ≡ priority }
{
    match line {
        Command::Begin { priority } => *priority,
        _ => 0,
    }
}

/// The session's time: the reading of the command and the time that it was told move it.
fn last_after(last: HybridTime, reading: Option<u64>, told: &Told) -> HybridTime
    requires { (micros : ℕ) → reading ≡ Some micros → micros ≤ 4000000000000000 }
    ensures { result ≡ max (moved_by last reading) (time_taken told.now) }
{
    let moved = match reading {
        Some(micros) => later(last, HybridTime::of(micros, 0)),
        None => last,
    };
    match told {
        Told::Written { at } | Told::Committed { at, .. } | Told::Values { at, .. } => {
            later(moved, *at)
        }
        _ => moved,
    }
}

fn later(first: HybridTime, second: HybridTime) -> HybridTime
    ensures { result ≡ max first second }
{
    if first < second { second } else { first }
}

/// The serial number that the session used last: a begin or a single that was not told that a transaction is open has
/// used one.
fn serial_after(serial: u64, line: &Command, told: &Told) -> u64
    requires { serial < 2 ^ 63 }
    ensures value { (s : Keeps) → s.serial ≡ serial → result ≡ used_after s line.now told.now }
    ensures most { result ≤ serial + 1 }
{
    if matches!(told, Told::Refused(ToldRefusal::TxnOpen)) {
        return serial;
    }
    match line {
        Command::Begin { .. } | Command::SinglePut { .. } | Command::SingleDel { .. } => serial + 1,
        _ => serial,
    }
}
