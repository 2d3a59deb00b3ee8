//! The lines of commands and of last passes.
ghost use Rattle.std.specs.Prelude.{◌≡◌, ◌++◌, true, IfOk, OnOk, string_bytes};
ghost use Rattle.serde_json.specs.View.{view};
ghost use Rattle.report_text.specs.Answer.{answer_text};
ghost use Rattle.report_text.specs.Line.{json_data, json_object, line_text, plain_line};

use crate::answer::answer;
use crate::told_line::ToldLine;
use docdb_base::Memory;
use serde_json::{Value, json};
use std::alloc::Global;

/// Puts the line of a call at the end, as JSON or plain.
pub(crate) fn put_line(
    alloc: Global,
    text: &mut String,
    json: bool,
    call: &str,
    shown: &ToldLine<'_>,
) -> Result<(), Memory>
    ensures { OnOk result (string_bytes text.new ≡ string_bytes text.old ++ line_text json call.now shown.now.word (answer_text shown.now.told)) }
{
    let answer = answer(alloc, shown.told)?;
    if json {
        put_json(alloc, text, call, shown.word, &answer)
    } else {
        put_plain(text, call, shown.word, &answer)
    }
}

fn put_plain(text: &mut String, call: &str, word: &str, answer: &str) -> Result<(), Memory>
    ensures { OnOk result (string_bytes text.new ≡ string_bytes text.old ++ plain_line call.now word.now answer.now) }
{
    text.push_str(call)?;
    text.push_str(" ")?;
    text.push_str(word)?;
    text.push_str(" ")?;
    text.push_str(answer)?;
    text.push_str("\n")
}

fn put_json(
    alloc: Global,
    text: &mut String,
    call: &str,
    word: &str,
    answer: &str,
) -> Result<(), Memory>
    ensures { OnOk result (string_bytes text.new ≡ string_bytes text.old ++ line_text true call.now word.now answer.now) }
{
    let object = json_object(alloc, call, word, answer)?;
    text.push_str(&object)?;
    text.push_str("\n")
}

/// The object of a line, in compact form with its keys in byte order.
fn json_object(alloc: Global, call: &str, word: &str, told: &str) -> Result<String, Memory>
    ensures { IfOk result (λ object. string_bytes object ≡ json_object call.now word.now told.now) }
{
    let value = json_value(alloc, call, word, told)?;
    let object = value.to_vec(alloc)?;
    Ok(String::from_utf8(object).unwrap())
}

fn json_value(alloc: Global, call: &str, word: &str, told: &str) -> Result<Value, Memory>
    ensures { IfOk result (λ value. view value ≡ json_data call.now word.now told.now) }
{
    json!(in alloc; {"call": call, "command": word, "told": told})
}
