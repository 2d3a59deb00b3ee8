//! The body of a script is read.
ghost use Rattle.std.specs.Prelude.{◌≡◌, ◌+◌, ◌^◌, ◌<◌, IfOk, length};
ghost use Rattle.txn_types.specs.Plan.{IsCluster};
ghost use Rattle.txn_types.specs.Script.{IsRunnable};
ghost use Rattle.cluster_config.specs.Head.{IsSpelled};
ghost use Rattle.script_text.specs.Lines.{lines_of};
ghost use Rattle.script_text.specs.Outcomes.{Tells};
ghost use Rattle.script_text.specs.Saying.{IsSaid};
ghost use Rattle.script_text.specs.Script.{body_of};

use crate::lines::cut_line;
use crate::said::Said;
use crate::script_refusal::ScriptRefusal;
use crate::sessions::flags_of;
use std::alloc::Global;
use txn_data::{Commands, Config};

/// The plan of a body, whose first line has this number.
pub(crate) fn read_body(
    alloc: Global,
    config: &Config,
    first: u32,
    body: &[u8],
) -> Result<Commands, ScriptRefusal>
    requires cluster { IsCluster config.now }
    requires few { first + length body.now < 2 ^ 32 }
    ensures value { Tells (λ c. c) result (body_of config.now first (lines_of body.now)) }
    ensures said { IfOk result (IsSaid config.now) }
    ensures runs { IsSpelled config.now → IfOk result (IsRunnable config.now) }
{
    let flags = flags_of(alloc, body)?;
    let mut said = Said::nothing(alloc);
    let mut number = first;
    let mut rest = body;
    'lines: while !rest.is_empty() {
        let (line, after) = cut_line(rest);
        said.read_line(alloc, config, &flags, number, line)?;
        number += 1;
        rest = after;
    }
    Ok(said.into_commands())
}
