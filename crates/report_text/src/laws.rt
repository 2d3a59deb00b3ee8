//! What the total tells of clocks.
ghost use Rattle.std.specs.Prelude.{◌≡◌, ◌↔◌, true};
ghost use Rattle.txn_data.specs.declared.config.Config.{Config};
ghost use Rattle.txn_types.specs.History.{History};
ghost use Rattle.report_text.specs.Text.{Agreed, agreed};

/// The total says `ok` exactly where, for each finished read, each reading before its origin is at most its own plus the
/// skew of the cluster.
pub fn the_total_says_whether_clocks_agreed()
    ensures { (config : Config) (h : History) → (agreed config h ≡ true) ↔ Agreed config h }
{}
