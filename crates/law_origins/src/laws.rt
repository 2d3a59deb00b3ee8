//! The origin of a read under two configs. A call does nothing.
ghost use Rattle.law_origins.specs.Laws.{OriginsAreOfNoConfig};

/// A finished read has one origin, whatever the config.
pub fn origins_are_of_no_config()
    ensures { OriginsAreOfNoConfig }
{}
