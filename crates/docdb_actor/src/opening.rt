//! The lines that open an actor.
ghost use Rattle.std.specs.Prelude.{◌≤◌, IfOk};

use crate::log::read_log;
use crate::machine_seat::{MachineKind, MachineSeat};
use crate::seated::Seated;
use crate::session_seat::SessionSeat;
use crate::status_seat::open_status;
use crate::tablet_seat::open_tablet;
use actor_words::{NotRead, Words};
use std::alloc::Global;

/// The most by which clocks may differ, in microseconds.
const MOST_SKEW: u64 = 10_000_000;

/// The longest lease, in microseconds.
const LONGEST_LEASE: u64 = 60_000_000;

/// The actor that a line opens, where its first word says that it does.
pub fn opened(alloc: Global, line: &[u8]) -> Result<Option<Seated>, NotRead> {
    let mut words = Words::of(line);
    match words.next()? {
        b"session" => Ok(Some(Seated::Session(session(alloc, words)?))),
        b"tablet" => Ok(Some(Seated::Machine(tablet(alloc, words)?))),
        b"status" => Ok(Some(Seated::Machine(status(alloc, words)?))),
        _ => Ok(None),
    }
}

fn session(alloc: Global, mut words: Words) -> Result<SessionSeat, NotRead> {
    let session = words.small()?;
    words.expect(b"node")?;
    let node = words.small()?;
    words.expect(b"status")?;
    let status = words.small()?;
    words.expect(b"skew")?;
    let skew_us = words.number()?;
    words.end()?;
    if skew_us > MOST_SKEW {
        return Err(NotRead::Form);
    }
    Ok(SessionSeat::open(alloc, session, node, status, skew_us)?)
}

fn tablet(alloc: Global, mut words: Words) -> Result<MachineSeat, NotRead> {
    let number = words.small()?;
    let lease_us = lease(&mut words)?;
    let log = read_log(alloc, &mut words)?;
    Ok(MachineSeat {
        kind: MachineKind::Tablet(open_tablet(alloc, number, lease_us, log)),
        reading: 0,
    })
}

fn status(alloc: Global, mut words: Words) -> Result<MachineSeat, NotRead> {
    let number = words.small()?;
    let lease_us = lease(&mut words)?;
    let log = read_log(alloc, &mut words)?;
    Ok(MachineSeat {
        kind: MachineKind::Status(open_status(alloc, number, lease_us, log)),
        reading: 0,
    })
}

// How long leases last, in microseconds.
fn lease(words: &mut Words) -> Result<u64, NotRead>
    ensures { IfOk result (λ lease_us. lease_us ≤ 60000000) }
{
    words.expect(b"lease")?;
    let lease_us = words.number()?;
    if lease_us == 0 || lease_us > LONGEST_LEASE {
        return Err(NotRead::Form);
    }
    Ok(lease_us)
}
