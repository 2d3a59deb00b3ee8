//! The strings that words spell.
ghost use Rattle.std.specs.Prelude.{◌≡◌};
ghost use Rattle.script_text.specs.declared.in_string.InString.TheVariants.{Plain};
ghost use Rattle.script_text.specs.Outcomes.{Reads};
ghost use Rattle.script_text.specs.Terms.{string_in};

use crate::in_string::InString;
use crate::no_term::NoTerm;
use crate::string_step::StringStep;
use std::alloc::Global;

/// The bytes of a string, whose text begins behind its first quote.
pub(crate) fn string_in(alloc: Global, text: &[u8]) -> Result<Vec<u8>, NoTerm>
    ensures { Reads (λ v. v.items) result (string_in text.now Plain) }
{
    let mut bytes = Vec::new(alloc);
    let mut at = InString::Plain;
    'bytes: for (i, byte) in text.iter().enumerate() {
        match at.step(*byte) {
            StringStep::Goes(next) => at = next,
            StringStep::Gives(given) => {
                bytes.push(given)?;
                at = InString::Plain;
            }
            StringStep::Ends if i + 1 == text.len() => return Ok(bytes),
            StringStep::Ends => return Err(NoTerm::Other),
            StringStep::Wrong => return Err(NoTerm::Other),
        }
    }
    Err(NoTerm::Other)
}
