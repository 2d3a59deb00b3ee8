//! Scripts are made.
ghost use Rattle.std.specs.Prelude.{◌≡◌, ◌≤◌, IfOk};
ghost use Rattle.txn_types.specs.Script.{IsRunnable};
ghost use Rattle.cluster_config.specs.Head.{IsSpelled};
ghost use Rattle.script_text.specs.Saying.{IsSaid};
ghost use Rattle.load_maker.specs.Made.{cluster, made};

use crate::draws::Draws;
use crate::plan::{TABLETS, put_block};
use docdb_base::{Generator, Memory, Seq};
use script_text::Said;
use std::alloc::Global;
use txn_data::{Commands, Config, Schedule};

/// The first reading of the node.
const FIRST_READING: u64 = 1_000_000;

fn cluster(alloc: Global) -> Result<Config, Memory>
    ensures { IfOk result (λ c. c ≡ cluster) }
{
    let mut start_us = Seq::new(alloc);
    start_us.push(FIRST_READING)?;
    Ok(Config {
        nodes: 1,
        tablets: TABLETS,
        status: 2,
        passes: 0,
        skew_us: 500_000,
        lease_us: 2_000_000,
        number: 0,
        start_us,
        schedule: Schedule::Serial,
    })
}

fn plan(alloc: Global, blocks: u32, number: u64) -> Result<Commands, Memory>
    ensures { IfOk result (λ p. p ≡ made blocks number) }
{
    let mut generator = Generator::of(number);
    let mut said = Said::nothing(alloc);
    'each: for block in 0..blocks {
        let draws = Draws::of(&mut generator);
        put_block(alloc, &mut said, block, &draws)?;
    }
    Ok(said.into_commands())
}

/// The cluster and the plan of a made script: ten commands for each of so many blocks, by the draws of a generator that
/// starts with the number.
pub fn make(alloc: Global, blocks: u32, number: u64) -> Result<(Config, Commands), Memory>
    ensures cluster { IfOk result (λ x. x.0 ≡ cluster) }
    ensures plan { IfOk result (λ x. x.1 ≡ made blocks number) }
    // A head can spell the cluster, and a script of at most 10,000 blocks can say the plan.
    ensures spelled { IfOk result (λ x. IsSpelled x.0) }
    ensures said { blocks ≤ 10000 → IfOk result (λ x. IsSaid x.0 x.1) }
    // A plan of at most 10,000 blocks can be run.
    ensures runs { blocks ≤ 10000 → IfOk result (λ x. IsRunnable x.0 x.1) }
{
    let config = cluster(alloc)?;
    let plan = plan(alloc, blocks, number)?;
    Ok((config, plan))
}
