//! What commands are answered, in every run. A call does nothing.
ghost use Rattle.law_answers.specs.Laws.{EachCommandHasItsAnswer};

/// What a session or an applier is told is a refusal, or an answer that its command may have. A transaction that it names is the
/// command's own.
pub fn each_command_has_its_answer()
    ensures { EachCommandHasItsAnswer }
{}
