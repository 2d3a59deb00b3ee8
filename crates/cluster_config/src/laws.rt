//! What holds of heads that are written.
ghost use Rattle.std.specs.Prelude.{◌≡◌, Ok};
ghost use Rattle.txn_data.specs.declared.config.Config.{Config};
ghost use Rattle.cluster_config.specs.Head.{IsSpelled, head_of};
ghost use Rattle.cluster_config.specs.Written.{head_text};

/// The text of a head that is written is read as the same configuration.
pub fn what_is_written_is_read()
    ensures { (config : Config) → IsSpelled config → head_of (head_text config) ≡ Ok config }
{}
