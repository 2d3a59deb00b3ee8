//! The commands that sessions have left.
ghost use Rattle.std.specs.Prelude.{◌≡◌, ◌++◌, ◌≤◌, ℕ, [], drop, flat_map, length, take, slice_set, vec_len, IfOk, OnOk, OnErr};
ghost use Rattle.std.specs.List.{All};
ghost use Rattle.txn_data.specs.declared.session_plan.SessionPlan.{SessionPlan as Plan};
ghost use Rattle.txn_types.specs.Script.{commands_of};
ghost use Rattle.script_text.specs.Queues.{lists_of, queue_of};
ghost use Rattle.script_text.specs.Written.{IsInBytes, line_text, told_line};

use crate::written_words::write_told;
use docdb_base::Memory;
use std::alloc::Global;
use txn_data::{Command, SessionPlan};

/// The commands of each session, at its number.
pub(crate) fn queues_of<'a>(
    alloc: Global,
    plans: &'a [SessionPlan],
) -> Result<Vec<&'a [Command]>, Memory>
    requires { All (λ (p : Plan). p.session ≤ 1000) plans.now }
    ensures room { IfOk result (λ v. vec_len v ≡ 1001) }
    ensures each { IfOk result (λ v. (i : ℕ) → i ≤ 1000 → queue_of v.items i ≡ commands_of i plans.now) }
{
    let none: &[Command] = &[];
    let mut queues = vec![in alloc; none; 1_001]?;
    let mut at = plans.len();
    while at > 0 {
        at -= 1;
        let plan = &plans[at];
        queues[plan.session as usize] = plan.commands.items();
    }
    Ok(queues)
}

/// Writes the line of the next command of a session, if it has one left.
pub(crate) fn write_next<'a>(
    queues: &mut Vec<&'a [Command]>,
    session: u32,
    out: &mut Vec<u8>,
) -> Result<(), Memory>
    requires room { vec_len queues.old ≡ 1001 }
    requires session { session ≤ 1000 }
    ensures room { vec_len queues.new ≡ 1001 }
    ensures ok { OnOk result (out.new.items ≡ out.old.items ++ flat_map line_text (told_line session (queue_of queues.old.items session))) }
    ensures later { OnOk result (lists_of queues.new.items ≡ slice_set (lists_of queues.old.items) session (drop 1 (queue_of queues.old.items session))) }
    ensures bytes { OnOk result (All IsInBytes (take 1 (queue_of queues.old.items session))) }
    ensures memory { OnErr result (take (length out.old.items) out.new.items ≡ out.old.items) }
{
    let [command, later @ ..] = queues[session as usize] else {
        return Ok(());
    };
    write_told(session, command, out)?;
    queues[session as usize] = later;
    Ok(())
}
