//! Heads are read.
ghost use Rattle.std.specs.Prelude.{◌≡◌, ◌≤◌, ◌⊎◌, IfOk, IfErr, IfSome, Ok, Err};
ghost use Rattle.toml.specs.View.{table_view};
ghost use Rattle.txn_types.specs.Plan.{IsCluster};
ghost use Rattle.cluster_config.specs.Head.{config_with, head_of, head_of_table, largest, IsSpelled};

use crate::head_refusal::HeadRefusal;
use crate::keys::has_listed_keys;
use crate::values::{LARGEST, number_or, readings_or, schedule_or, small_or};
use std::alloc::Global;
use toml::Table;
use txn_data::{Config, Readings};

// The configuration with these nodes and first readings.
fn config_with(table: &Table, nodes: u32, start_us: Readings) -> Option<Config>
    ensures value { result ≡ config_with (table_view table.now) nodes start_us }
    ensures given { IfSome result (λ c. (c.nodes ≡ nodes) × (c.start_us ≡ start_us)) }
    ensures cluster { 1 ≤ nodes → nodes ≤ 16 → IfSome result IsCluster }
    ensures number { IfSome result (λ c. c.number ≤ largest) }
{
    Some(Config {
        nodes,
        tablets: small_or(table, "tablets", 1, 64, 1)?,
        status: small_or(table, "status", 1, 16, 1)?,
        passes: small_or(table, "passes", 0, 1_000, 0)?,
        skew_us: number_or(table, "skew_us", 0, 10_000_000, 500_000)?,
        lease_us: number_or(table, "lease_us", 1, 60_000_000, 2_000_000)?,
        number: number_or(table, "number", 0, LARGEST, 0)?,
        start_us,
        schedule: schedule_or(table, "schedule")?,
    })
}

fn read_table(alloc: Global, table: &Table) -> Result<Config, HeadRefusal>
    ensures ok { IfOk result (λ c. head_of_table (table_view table.now) ≡ Ok c) }
    ensures spelled { IfOk result IsSpelled }
    ensures refused { IfErr result (λ e. (e ≡ HeadRefusal.Memory) ⊎ (head_of_table (table_view table.now) ≡ Err e)) }
{
    if !has_listed_keys(table) {
        return Err(HeadRefusal::HeadKey);
    }
    let nodes = small_or(table, "nodes", 1, 16, 1).ok_or(HeadRefusal::HeadValue)?;
    let start_us = readings_or(alloc, table, "start_us", nodes)?;
    config_with(table, nodes, start_us).ok_or(HeadRefusal::HeadValue)
}

/// The configuration that a head says, or why it says none. What was read can be written by `write_head`.
pub fn read_head(alloc: Global, text: &str) -> Result<Config, HeadRefusal>
    ensures ok { IfOk result (λ config. head_of text.now ≡ Ok config) }
    ensures spelled { IfOk result IsSpelled }
    ensures refused { IfErr result (λ e. (e ≡ HeadRefusal.Memory) ⊎ (head_of text.now ≡ Err e)) }
{
    match toml::table_from_str(alloc, text) {
        Ok(table) => read_table(alloc, &table),
        Err(error) => {
            if error.is_memory() {
                Err(HeadRefusal::Memory)
            } else {
                Err(HeadRefusal::HeadText)
            }
        }
    }
}
