//! Numbers that words spell.
use crate::not_read::NotRead;

/// The decimal number of a word, without a sign or a leading zero.
pub(crate) fn number_of(word: &[u8]) -> Result<u64, NotRead> {
    if word.is_empty() || (word.len() > 1 && word[0] == b'0') {
        return Err(NotRead::Form);
    }
    let mut number = 0;
    for digit in word {
        let Some(longer) = with_digit(number, *digit) else {
            return Err(NotRead::Form);
        };
        number = longer;
    }
    Ok(number)
}

fn with_digit(number: u64, digit: u8) -> Option<u64> {
    if !digit.is_ascii_digit() {
        return None;
    }
    number.checked_mul(10)?.checked_add(u64::from(digit - b'0'))
}

/// The same, of a number of 32 bits.
pub(crate) fn small_of(word: &[u8]) -> Result<u32, NotRead> {
    u32::try_from(number_of(word)?).map_err(|_| NotRead::Form)
}
