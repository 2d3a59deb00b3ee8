//! The report of a run.
ghost use Rattle.std.specs.Prelude.{◌≡◌, ◌++◌, ◌<◌, ◌^◌, Some, true, IfOk, OnOk, length, string_bytes};
ghost use Rattle.docdb_run.specs.Text.{report_text, command_line, last_line, total_of, total_line, word_of};
ghost use Rattle.docdb_run.specs.Outcome.{refused_script};

use crate::answer::answer;
use crate::counts::Counts;
use docdb_base::Memory;
use std::alloc::Global;
use txn_types::{Command, Told};

/// The report of these commands of session 1, of what each was told, and of what the last pass of tablet 0 was told.
pub fn report(
    alloc: Global,
    commands: &[Command],
    told: &[Told],
    passed: &Told,
) -> Result<Vec<u8>, Memory>
    requires same { length told.now ≡ length commands.now }
    requires few { length told.now < 2 ^ 32 }
    ensures { IfOk result (λ text. text.items ≡ report_text commands.now told.now passed.now) }
{
    let mut text = Vec::new(alloc);
    for (at, command) in commands.iter().enumerate() {
        put_command(alloc, &mut text, at + 1, command, &told[at])?;
    }
    put_last(alloc, &mut text, passed)?;
    put_total(alloc, &mut text, told)?;
    Ok(text)
}

/// The line by which a script is refused whose line with this number is not of the form.
pub fn refused_script(alloc: Global, line: u64) -> Result<String, Memory>
    ensures { IfOk result (λ text. string_bytes text ≡ refused_script line) }
{
    format!(in alloc; "refused script {line} later\n")
}

/// Puts the line of a command of session 1 at the end.
fn put_command(
    alloc: Global,
    text: &mut Vec<u8>,
    number: usize,
    command: &Command,
    told: &Told,
) -> Result<(), Memory>
    ensures { OnOk result (text.new.items ≡ text.old.items ++ command_line 1 number (word_of (Some command.now)) told.now) }
{
    let session = 1;
    let word = word_of(command);
    let head = format!(in alloc; "{session}.{number} {word} ")?;
    let answer = answer(alloc, told)?;
    text.extend_from_slice(head.as_bytes())?;
    text.extend_from_slice(answer.as_slice())?;
    text.extend_from_slice(b"\n")
}

fn word_of(command: &Command) -> &'static str
    ensures { result.now ≡ word_of (Some command.now) }
{
    match command {
        Command::SinglePut { .. } => "single",
        Command::Read { .. } => "read",
        Command::Clock { .. } => "clock",
        _ => "",
    }
}

/// Puts the line of the last pass of tablet 0 at the end.
fn put_last(alloc: Global, text: &mut Vec<u8>, told: &Told) -> Result<(), Memory>
    ensures { OnOk result (text.new.items ≡ text.old.items ++ last_line 0 told.now) }
{
    let tablet = 0;
    let head = format!(in alloc; "t{tablet} last ")?;
    let answer = answer(alloc, told)?;
    text.extend_from_slice(head.as_bytes())?;
    text.extend_from_slice(answer.as_slice())?;
    text.extend_from_slice(b"\n")
}

/// Puts the line of the total at the end.
fn put_total(alloc: Global, text: &mut Vec<u8>, told: &[Told]) -> Result<(), Memory>
    requires { length told.now < 2 ^ 32 }
    ensures { OnOk result (text.new.items ≡ text.old.items ++ total_of told.now true) }
{
    let counts = Counts::of(told);
    let line = total(alloc, told.len(), &counts)?;
    text.extend_from_slice(line.as_bytes())
}

/// The line of the total. In such a run clocks agree within the skew.
fn total(alloc: Global, commands: usize, counts: &Counts) -> Result<String, Memory>
    ensures { IfOk result (λ line. string_bytes line ≡ total_line commands counts.now.ok counts.now.refused
        counts.now.committed counts.now.reads counts.now.restarts true) }
{
    let Counts {
        ok,
        refused,
        committed,
        reads,
        restarts,
    } = *counts;
    let reads = format!(in alloc; "reads={reads} restarts={restarts} skew=ok\n")?;
    format!(in alloc;
        "total commands={commands} ok={ok} refused={refused} committed={committed} {reads}"
    )
}
