//! A log store in memory that fails where it is told to.
ghost use Rattle.std.specs.Prelude.{◌≡◌, ◌≤◌, ◌<◌, ◌+◌, ◌-◌, ◌++◌, ◌↔◌, length};
ghost use Rattle.std.specs.Prelude.{OnOk, OnErr, IsErrOf, is_err, is_some, IsSome};
ghost use Rattle.std.specs.Vec.{vec_capacity, vec_len};
ghost use Rattle.docdb_outside.specs.MemLog.{failure_at, next_failure, held_after};
ghost use Rattle.docdb_outside.specs.MemLog.{after_call, after_fault, after_load};

use crate::fail_at::FailAt;
use crate::failed::Failed;
use crate::load_fault::LoadFault;
use crate::log_store::LogStore;
use docdb_base::Memory;
use std::marker::Model;

/// A log in memory. The appends and loads that its script names fail, and no others.
#[derive(Debug, Drop)]
pub struct MemLog {
    bytes: Vec<u8>,
    fails: Vec<FailAt>,
    calls: u64,
    faults: u64,
    loads: u64,
}

impl Model for MemLog {
    ghost use Rattle.std.specs.Prelude.{◌-◌};
    ghost use Rattle.std.specs.Vec.{vec_capacity, vec_len};
    ghost use Rattle.docdb_outside.specs.MemLog.{LogState};

    ghost Value = { LogState };

    ghost view = { λ s. record {
      held = s.bytes.items;
      room = vec_capacity s.bytes - vec_len s.bytes;
      fails = s.fails.items;
      calls = s.calls;
      faults = s.faults;
      loads = s.loads;
    } };
}

impl MemLog {
    /// A log that holds these bytes. Appends and loads are numbered together, the first being number 1.
    pub fn of(bytes: Vec<u8>, fails: Vec<FailAt>) -> MemLog
        ensures { result ≡ record {
          held = bytes.items;
          room = vec_capacity bytes - vec_len bytes;
          fails = fails.items;
          calls = 0;
          faults = 0;
          loads = 0;
        } }
    {
        MemLog {
            bytes,
            fails,
            calls: 0,
            faults: 0,
            loads: 0,
        }
    }

    /// The bytes held. It takes no memory.
    pub fn held(&self) -> &[u8]
        ensures { result.now ≡ self.now.held }
    {
        self.bytes.as_slice()
    }
}

impl LogStore for MemLog {
    ghost held = { λ s. s.held };

    ghost room = { λ s. s.room };

    ghost faults = { λ s. s.faults };

    ghost loads = { λ s. s.loads };

    fn make_room(&mut self, bytes: usize) -> Result<(), Memory>
        ensures ok { OnOk result (bytes ≤ self.new.room) }
        ensures memory { OnErr result (self.old.room < bytes) }
        ensures same { self.new ≡ record self.old { room = self.new.room } }
        ensures err { OnErr result (self.new.room ≡ self.old.room) }
    {
        self.bytes.reserve(bytes)
    }

    fn append(&mut self, bytes: &[u8]) -> Result<(), Failed>
        requires { length bytes.now ≤ self.old.room }
        ensures fails { is_err result ≡ is_some (next_failure self.old) }
        ensures held { self.new.held ≡ held_after (next_failure self.old) self.old.held bytes.now }
        ensures room { self.old.room ≤ self.new.room + length bytes.now }
        ensures ok { OnOk result
            (self.new ≡ record (after_call self.old) { held = self.new.held; room = self.new.room }) }
        ensures err { OnErr result
            (self.new ≡ record (after_fault self.old) { held = self.new.held; room = self.new.room }) }
        ensures faults { self.old.faults ≤ self.new.faults }
    {
        self.calls = self.calls.saturating_add(1);
        let failure = failure_of(&self.fails, self.calls);
        if failure.is_none_or(|f| f.kept) {
            self.bytes.extend_from_slice(bytes).unwrap();
        }
        if failure.is_some() {
            self.faults = self.faults.saturating_add(1);
            return Err(Failed);
        }
        Ok(())
    }

    fn load(&mut self, out: &mut Vec<u8>) -> Result<(), LoadFault>
        ensures fails { IsErrOf result LoadFault.Failed ↔ IsSome (next_failure self.old) }
        ensures memory { IsErrOf result LoadFault.Memory →
            vec_capacity out.old < vec_len out.old + length self.old.held }
        ensures ok { OnOk result (self.new ≡ after_load self.old) }
        ensures out { OnOk result (out.new.items ≡ out.old.items ++ self.old.held) }

        // After an error.
        ensures out_kept { OnErr result (out.new.items ≡ out.old.items) }
        ensures after_failed { IsErrOf result LoadFault.Failed → self.new ≡ after_fault self.old }
        ensures after_memory { IsErrOf result LoadFault.Memory → self.new ≡ after_call self.old }

        ensures faults { self.old.faults ≤ self.new.faults }
        ensures loads { self.old.loads ≤ self.new.loads }
    {
        self.calls = self.calls.saturating_add(1);
        if failure_of(&self.fails, self.calls).is_some() {
            self.faults = self.faults.saturating_add(1);
            return Err(LoadFault::Failed);
        }
        out.extend_from_slice(&self.bytes)?;
        self.loads = self.loads.saturating_add(1);
        Ok(())
    }
}

/// What the script says of the call with this number.
fn failure_of(fails: &[FailAt], number: u64) -> Option<FailAt>
    ensures { result ≡ failure_at fails.now number }
{
    fails.iter().copied().find(|f| f.call == number)
}
