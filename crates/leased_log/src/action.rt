//! A decision for which all memory is taken.
ghost use Rattle.std.specs.Prelude.{◌≡◌, ◌++◌, IsTrue, IfOk, OnOk, IfSome, option_copied, option_to_list};
ghost use Rattle.log_record.specs.Spelling.{has_spelling};
ghost use Rattle.std.specs.List.{AllByRecursion};
ghost use Rattle.tablet_log.specs.Frames.{IsRecord, frames};
ghost use Rattle.leased_log.specs.Decides.{lease_of, lease_records};

use crate::decision::Decision;
use crate::in_range::numbers_are_in_range;
use docdb_base::{Memory, TryCopy};
use log_record::LogRecord;
use safe_time::Step;
use std::alloc::Global;
use std::marker::Model;
use tablet_log::frames;
use txn_types::Reply;

/// A decision for which all memory is taken: the copy of its reply, and the frames of what is to be logged. Contracts see
/// the decision.
#[derive(Debug, Drop)]
pub struct Action {
    pub(crate) reply: Reply,
    pub(crate) copy: Reply,
    pub(crate) step: Option<Step>,
    pub(crate) own: Option<LogRecord>,
    pub(crate) bytes: Vec<u8>,
}

impl Model for Action {
    ghost use Rattle.std.specs.Prelude.{◌≡◌};
    ghost use Rattle.std.specs.List.{AllByRecursion};
    ghost use Rattle.tablet_log.specs.Frames.{IsRecord, frames};
    ghost use Rattle.leased_log.specs.declared.decision.Decision.{Decision as Said};
    ghost use Rattle.leased_log.specs.Decides.{records_of_step};

    ghost Value = { Said };

    ghost view = { λ a. record { reply = a.reply; step = a.step; own = a.own } };

    ghost invariant = { λ a. (a.copy ≡ a.reply) × (a.bytes.items ≡ frames (records_of_step a.step a.own)) × AllByRecursion IsRecord (records_of_step a.step a.own) };
}

impl Action {
    pub(crate) fn of(alloc: Global, decision: Decision) -> Result<Action, Memory>
        requires { IfSome decision.own (λ own. IsTrue (has_spelling own)) }
        ensures { IfOk result (λ action. action ≡ decision) }
    {
        let Decision { reply, step, own } = decision;
        let copy = reply.try_copy(alloc)?;
        let (bytes, own) = framed(alloc, lease_of(&step), own)?;
        Ok(Action {
            reply,
            copy,
            step,
            own,
            bytes,
        })
    }

    /// The record of the action's own, where it has one. It takes no memory.
    pub fn own(&self) -> Option<&LogRecord>
        ensures { option_copied result ≡ self.now.own }
    {
        self.own.as_ref()
    }
}

/// The lease that a step needs.
pub fn lease_of(step: &Option<Step>) -> Option<u64>
    ensures { result ≡ lease_of step.now }
{
    match step {
        Some(step) => step.lease,
        None => None,
    }
}

/// The frames of a lease and of a record, where they are there, and the record again.
fn framed(
    alloc: Global,
    lease: Option<u64>,
    own: Option<LogRecord>,
) -> Result<(Vec<u8>, Option<LogRecord>), Memory>
    requires { IfSome own (λ own. IsTrue (has_spelling own)) }
    ensures bytes { IfOk result (λ made. made.0.items ≡ frames (lease_records lease ++ option_to_list own)) }
    ensures own { IfOk result (λ made. made.1 ≡ own) }
    ensures records { OnOk result (AllByRecursion IsRecord (lease_records lease ++ option_to_list own)) }
{
    let mut records = Vec::with_capacity(alloc, 2)?;
    if let Some(until) = lease {
        records.push(LogRecord::Lease { until })?;
    }
    let Some(own) = own else {
        let bytes = frames(alloc, &records)?;
        return Ok((bytes, None));
    };
    numbers_are_in_range(&own);
    records.push(own)?;
    let bytes = frames(alloc, &records)?;
    Ok((bytes, records.pop()))
}
