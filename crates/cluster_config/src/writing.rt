//! Heads are written.
ghost use Rattle.std.specs.Prelude.{◌≡◌, ◌≤◌, IfOk, OnOk, Ok, pos, string_bytes};
ghost use Rattle.std.specs.List.{All};
ghost use Rattle.toml.specs.Data.{array, integer};
ghost use Rattle.toml.specs.View.{table_view, view};
ghost use Rattle.cluster_config.specs.Head.{IsSpelled, head_of, largest};
ghost use Rattle.cluster_config.specs.Table.{integers, put, schedule_text, table_of};
ghost use Rattle.cluster_config.specs.Written.{head_text};

use docdb_base::Memory;
use std::alloc::{AllocError, Global};
use toml::ser::Error;
use toml::{Table, Value};
use txn_data::{Config, Schedule};

// Puts a value under its key.
fn put(alloc: Global, table: &mut Table, key: &str, value: Value) -> Result<(), Memory>
    ensures { OnOk result (table_view table.new ≡ put key.now (view value) (table_view table.old)) }
{
    let key = String::from_str(alloc, key)?;
    match table.insert(key, value) {
        Ok(_) => Ok(()),
        Err(_) => Err(AllocError),
    }
}

fn number(value: u64) -> Value
    requires { value ≤ largest }
    ensures { view result ≡ integer (pos value) }
{
    Value::from(value as i64)
}

fn readings(alloc: Global, numbers: &[u64]) -> Result<Value, Memory>
    requires { All (λ n. n ≤ largest) numbers.now }
    ensures { IfOk result (λ v. view v ≡ array (integers numbers.now)) }
{
    let mut values = Vec::new(alloc);
    'items: for reading in numbers {
        values.push(number(*reading))?;
    }
    Ok(Value::Array(values))
}

fn schedule_text(schedule: Schedule) -> &'static str
    ensures { result.now ≡ schedule_text schedule }
{
    match schedule {
        Schedule::Serial => "serial",
        Schedule::Go => "go",
        Schedule::Drawn => "drawn",
    }
}

fn table_of(alloc: Global, config: &Config) -> Result<Table, Memory>
    requires { IsSpelled config.now }
    ensures { IfOk result (λ t. table_view t ≡ table_of config.now) }
{
    let mut table = Table::new(alloc);
    put(alloc, &mut table, "nodes", number(config.nodes as u64))?;
    put(alloc, &mut table, "tablets", number(config.tablets as u64))?;
    put(alloc, &mut table, "status", number(config.status as u64))?;
    put(alloc, &mut table, "passes", number(config.passes as u64))?;
    put(alloc, &mut table, "skew_us", number(config.skew_us))?;
    put(alloc, &mut table, "lease_us", number(config.lease_us))?;
    put(alloc, &mut table, "number", number(config.number))?;
    let start_us = readings(alloc, config.start_us.items())?;
    put(alloc, &mut table, "start_us", start_us)?;
    let schedule = String::from_str(alloc, schedule_text(config.schedule))?;
    put(alloc, &mut table, "schedule", Value::String(schedule))?;
    Ok(table)
}

/// The head of a configuration: a text that is read as this configuration.
pub fn write_head(alloc: Global, config: &Config) -> Result<String, Memory>
    requires { IsSpelled config.now }
    ensures text { IfOk result (λ text. string_bytes text ≡ head_text config.now) }
    ensures read { IfOk result (λ text. head_of (string_bytes text) ≡ Ok config.now) }
{
    let table = table_of(alloc, config)?;
    match toml::table_to_string(alloc, &table) {
        Ok(text) => Ok(text),
        Err(Error::OutOfMemory) => Err(AllocError),
        // A head has no date.
        Err(Error::DateInvalid) => unreachable!(),
    }
}
