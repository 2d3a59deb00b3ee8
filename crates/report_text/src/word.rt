//! The words of commands.
ghost use Rattle.std.specs.Prelude.{◌≡◌};
ghost use Rattle.report_text.specs.Line.{word_of};

use txn_types::Command;

/// The first word of a command, or `end`.
pub(crate) fn word_of(line: &Command) -> &'static str
    ensures { result.now ≡ word_of line.now }
{
    match line {
        Command::Begin { .. } => "begin",
        Command::Put { .. } => "put",
        Command::Del { .. } => "del",
        Command::Commit => "commit",
        Command::Abort => "abort",
        Command::Read { .. } => "read",
        Command::Scan { .. } => "scan",
        Command::SinglePut { .. } | Command::SingleDel { .. } => "single",
        Command::Restart { .. } => "restart",
        Command::Apply { .. } => "apply",
        Command::Clock { .. } => "clock",
        Command::End => "end",
    }
}
