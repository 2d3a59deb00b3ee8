//! What holds of each machine in every run, for proofs of callers. A call does nothing.
ghost use Rattle.law_machines.specs.Laws.{EachByItsTable, LogIsWhatTookEffect};

/// In every run the own entries of each machine are what its table answers, one after another.
pub fn each_by_its_table()
    ensures { EachByItsTable }
{}

/// In every run what stands in the log of an actor is what took effect there and was logged, in the order of taking
/// effect.
pub fn log_is_what_took_effect()
    ensures { LogIsWhatTookEffect }
{}
