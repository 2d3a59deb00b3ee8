//! The values of a head, each from what stands at its key, or its default.
ghost use Rattle.std.specs.Prelude.{◌≡◌, ◌≤◌, ◌⊎◌, IfOk, IfErr, IfSome, Some, None, option_map, length};
ghost use Rattle.std.specs.List.{All};
ghost use Rattle.toml.specs.Data.{get_member};
ghost use Rattle.toml.specs.View.{array_view, table_view, view};
ghost use Rattle.cluster_config.specs.Head.{largest, number_or, readings_or, schedule_named, schedule_or};
ghost use Rattle.cluster_config.specs.Head.{whole_in, whole_numbers};

use crate::head_refusal::HeadRefusal;
use docdb_base::Seq;
use std::alloc::Global;
use toml::value::Array;
use toml::{Table, Value};
use txn_data::{Readings, Schedule};

/// The largest whole number of a head, which is the largest of TOML.
pub const LARGEST: u64 = 9_223_372_036_854_775_807;

// The first reading of each node where the head says none.
const FIRST_READING: u64 = 1_000_000;

// The value at a key.
fn value_at<'a>(table: &'a Table, key: &str) -> Option<&'a Value>
    ensures { option_map (λ v. view v.now) result ≡ get_member key.now (table_view table.now) }
{
    table.get(key)
}

// The integer, where it lies from `low` to `high`.
fn whole_in(low: u64, high: u64, value: i64) -> Option<u64>
    ensures value { result ≡ whole_in low high value }
    ensures above { IfSome result (λ n. low ≤ n) }
    ensures within { IfSome result (λ n. n ≤ high) }
{
    if value < 0 {
        return None;
    }
    let number = value as u64;
    if low <= number && number <= high {
        Some(number)
    } else {
        None
    }
}

// The whole number of a key.
pub fn number_or(table: &Table, key: &str, low: u64, high: u64, default: u64) -> Option<u64>
    ensures value { result ≡ number_or low high default (get_member key.now (table_view table.now)) }
    ensures above { low ≤ default → IfSome result (λ n. low ≤ n) }
    ensures within { default ≤ high → IfSome result (λ n. n ≤ high) }
{
    match value_at(table, key) {
        Some(value) => whole_in(low, high, value.as_integer()?),
        None => Some(default),
    }
}

// The whole number of a key, where 32 bits are enough.
pub fn small_or(table: &Table, key: &str, low: u32, high: u32, default: u32) -> Option<u32>
    requires { default ≤ high }
    ensures value { result ≡ number_or low high default (get_member key.now (table_view table.now)) }
    ensures above { low ≤ default → IfSome result (λ n. low ≤ n) }
    ensures within { IfSome result (λ n. n ≤ high) }
{
    let number = number_or(table, key, low as u64, high as u64, default as u64)?;
    Some(number as u32)
}

fn schedule_named(name: &str) -> Option<Schedule>
    ensures { result ≡ schedule_named name.now }
{
    match name {
        "serial" => Some(Schedule::Serial),
        "go" => Some(Schedule::Go),
        "drawn" => Some(Schedule::Drawn),
        _ => None,
    }
}

// The schedule of a key.
pub fn schedule_or(table: &Table, key: &str) -> Option<Schedule>
    ensures { result ≡ schedule_or (get_member key.now (table_view table.now)) }
{
    match value_at(table, key) {
        Some(value) => schedule_named(value.as_str()?),
        None => Some(Schedule::Serial),
    }
}

fn whole_numbers(alloc: Global, values: &Array) -> Result<Vec<u64>, HeadRefusal>
    ensures ok { IfOk result (λ v. whole_numbers (array_view values.now) ≡ Some v.items) }
    ensures small { IfOk result (λ v. All (λ n. n ≤ largest) v.items) }
    ensures refused { IfErr result (λ e. (e ≡ HeadRefusal.Memory)
        ⊎ ((e ≡ HeadRefusal.HeadValue) × (whole_numbers (array_view values.now) ≡ None))) }
{
    let mut numbers = Vec::new(alloc);
    'items: for value in values {
        let number = value.as_integer().ok_or(HeadRefusal::HeadValue)?;
        let reading = whole_in(0, LARGEST, number).ok_or(HeadRefusal::HeadValue)?;
        numbers.push(reading).map_err(|_| HeadRefusal::Memory)?;
    }
    Ok(numbers)
}

// The first readings of a key, as many as nodes.
pub fn readings_or(
    alloc: Global,
    table: &Table,
    key: &str,
    nodes: u32,
) -> Result<Readings, HeadRefusal>
    ensures ok { IfOk result (λ ns. readings_or nodes (get_member key.now (table_view table.now)) ≡ Some ns) }
    ensures small { IfOk result (λ ns. All (λ n. n ≤ largest) ns) }
    ensures as_many { IfOk result (λ ns. length ns ≡ nodes) }
    ensures refused { IfErr result (λ e. (e ≡ HeadRefusal.Memory)
        ⊎ ((e ≡ HeadRefusal.HeadValue) × (readings_or nodes (get_member key.now (table_view table.now)) ≡ None))) }
{
    let Some(value) = value_at(table, key) else {
        return match vec![in alloc; FIRST_READING; nodes as usize] {
            Ok(same) => Ok(Seq::of(same)),
            Err(_) => Err(HeadRefusal::Memory),
        };
    };
    let values = value.as_array().ok_or(HeadRefusal::HeadValue)?;
    let numbers = whole_numbers(alloc, values)?;
    if numbers.len() != nodes as usize {
        return Err(HeadRefusal::HeadValue);
    }
    Ok(Seq::of(numbers))
}
