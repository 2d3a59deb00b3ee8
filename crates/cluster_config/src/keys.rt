//! The keys of a head.
ghost use Rattle.std.specs.Prelude.{◌≡◌};
ghost use Rattle.toml.specs.View.{table_view};
ghost use Rattle.cluster_config.specs.Head.{has_listed_keys, is_listed};

use toml::Table;

fn is_listed(key: &str) -> bool
    ensures { result ≡ is_listed key.now }
{
    matches!(
        key,
        "nodes"
            | "tablets"
            | "status"
            | "skew_us"
            | "lease_us"
            | "start_us"
            | "schedule"
            | "number"
            | "passes"
    )
}

// A head has each key of the table.
pub fn has_listed_keys(table: &Table) -> bool
    ensures { result ≡ has_listed_keys (table_view table.now) }
{
    'members: for (key, _value) in table.iter() {
        if !is_listed(key.as_str()) {
            return false;
        }
    }
    true
}
