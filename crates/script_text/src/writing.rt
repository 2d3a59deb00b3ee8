//! Scripts are written.
ghost use Rattle.std.specs.Prelude.{◌≡◌, ◌++◌, ◌≤◌, ℕ, [], codes, flat_map, length, map, take, Ok, OnOk, OnErr};
ghost use Rattle.std.specs.List.{All};
ghost use Rattle.txn_data.specs.declared.session_plan.SessionPlan.{SessionPlan as Plan};
ghost use Rattle.txn_types.specs.Script.{commands_of, count};
ghost use Rattle.cluster_config.specs.Head.{IsSpelled};
ghost use Rattle.cluster_config.specs.Written.{head_text};
ghost use Rattle.script_text.specs.Saying.{IsSaid};
ghost use Rattle.script_text.specs.Script.{most_bytes, script_of};
ghost use Rattle.script_text.specs.Written.{IsInBytes, go_words, line_text, told_lines, written};

use crate::laws::what_is_written_is_read;
use crate::queues::{queues_of, write_next};
use crate::written_words::write_go;
use cluster_config::write_head;
use docdb_base::Memory;
use txn_data::{Commands, Config, GoLine, SessionPlan};

/// The commands of the sessions, in line order.
#[tactic(auto, using(crate::proofs::Kept::kept))]
fn write_commands(plans: &[SessionPlan], order: &[u32], out: &mut Vec<u8>) -> Result<(), Memory>
    requires sessions { All (λ (p : Plan). p.session ≤ 1000) plans.now }
    requires order { All (λ i. i ≤ 1000) order.now }
    ensures ok { OnOk result (out.new.items ≡ out.old.items ++ flat_map line_text (told_lines plans.now [] order.now)) }
    ensures bytes { OnOk result ((i : ℕ) → i ≤ 1000 → All IsInBytes (take (count i order.now) (commands_of i plans.now))) }
    ensures memory { OnErr result (take (length out.old.items) out.new.items ≡ out.old.items) }
{
    let mut queues = queues_of(*out.allocator(), plans)?;
    'lines: for session in order {
        write_next(&mut queues, *session, out)?;
    }
    Ok(())
}

#[tactic(auto, using(crate::proofs::Kept::kept))]
fn write_moves(lines: &[GoLine], out: &mut Vec<u8>) -> Result<(), Memory>
    ensures ok { OnOk result (out.new.items ≡ out.old.items ++ flat_map line_text (map go_words lines.now)) }
    ensures memory { OnErr result (take (length out.old.items) out.new.items ≡ out.old.items) }
{
    'lines: for line in lines {
        write_go(line, out)?;
    }
    Ok(())
}

/// The head, and the line that ends it.
fn write_top(config: &Config, out: &mut Vec<u8>) -> Result<(), Memory>
    requires { IsSpelled config.now }
    ensures ok { OnOk result (out.new.items ≡ out.old.items ++ (head_text config.now ++ codes "---\n")) }
    ensures memory { OnErr result (take (length out.old.items) out.new.items ≡ out.old.items) }
{
    let head = write_head(*out.allocator(), config)?;
    out.extend_from_slice(head.as_bytes())?;
    out.extend_from_slice(b"---\n")?;
    Ok(())
}

fn write(config: &Config, plan: &Commands, out: &mut Vec<u8>) -> Result<(), Memory>
    requires spelled { IsSpelled config.now }
    requires said { IsSaid config.now plan.now }
    ensures ok { OnOk result (out.new.items ≡ out.old.items ++ written config.now plan.now) }
    ensures read { OnOk result (length (written config.now plan.now) ≤ most_bytes → script_of (written config.now plan.now) ≡ Ok (config.now, plan.now)) }
    ensures memory { OnErr result (take (length out.old.items) out.new.items ≡ out.old.items) }
{
    write_top(config, out)?;
    write_commands(plan.sessions.items(), plan.order.items(), out)?;
    what_is_written_is_read();
    write_moves(plan.go.items(), out)
}

/// Appends the text of a script. It is read as the same cluster and the same plan, unless it is longer than a script
/// may be. If memory runs out, `out` is as before.
pub fn write_script(config: &Config, plan: &Commands, out: &mut Vec<u8>) -> Result<(), Memory>
    requires spelled { IsSpelled config.now }
    requires said { IsSaid config.now plan.now }
    ensures ok { OnOk result (out.new.items ≡ out.old.items ++ written config.now plan.now) }
    ensures read { OnOk result (length (written config.now plan.now) ≤ most_bytes → script_of (written config.now plan.now) ≡ Ok (config.now, plan.now)) }
    ensures memory { OnErr result (out.new.items ≡ out.old.items) }
{
    let before = out.len();
    let done = write(config, plan, out);
    if done.is_err() {
        out.truncate(before);
    }
    done
}
