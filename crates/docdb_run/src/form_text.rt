//! Texts and numbers of a line.
ghost use Rattle.std.specs.Prelude.{◌≡◌, ◌≤◌, ◌<◌, ◌^◌, ◌+◌, ◌-◌, ◌*◌, ◌&&◌, nat_le, Some, None, length, if◌then◌else◌, option_copied, IfSome};
ghost use Rattle.docdb_run.specs.Form.{after_text, is_letter, letter_count, is_digit, number_from, number_of, is_word};

/// What follows `text`, where the bytes begin with it.
pub fn after_text<'a>(text: &[u8], bytes: &'a [u8]) -> Option<&'a [u8]>
    ensures { option_copied result ≡ after_text text.now bytes.now }
{
    bytes.strip_prefix(text)
}

/// How many letters a to z the bytes begin with.
pub fn letter_count(bytes: &[u8]) -> usize
    ensures value { result ≡ letter_count bytes.now }
    ensures most { result ≤ length bytes.now }
{
    let mut count = 0;
    for byte in bytes {
        if !is_letter(*byte) {
            return count;
        }
        count += 1;
    }
    count
}

fn is_letter(byte: u8) -> bool
    ensures { result ≡ is_letter byte }
{
    b'a' <= byte && byte <= b'z'
}

/// Whether this many letters are a word of a script: one to eight.
pub fn is_word(letters: usize) -> bool
    ensures { result ≡ is_word letters }
{
    1 <= letters && letters <= 8
}

/// The decimal number that these digits spell, without a leading zero, where it is no greater than `most`.
pub fn number_of(most: u64, digits: &[u8]) -> Option<u64>
    ensures value { result ≡ number_of most digits.now }
    ensures most { IfSome result (λ n. n ≤ most) }
{
    if digits.is_empty() || (digits.len() > 1 && digits[0] == b'0') {
        return None;
    }
    number_from(most, digits)
}

fn number_from(most: u64, digits: &[u8]) -> Option<u64>
    ensures value { result ≡ number_from most 0 digits.now }
    ensures most { IfSome result (λ n. n ≤ most) }
{
    let mut number = 0;
    for digit in digits {
        let Some(longer) = with_digit(most, number, *digit) else {
            return None;
        };
        number = longer;
    }
    Some(number)
}

/// The number with one more digit, where that is one and the number is no greater than `most`.
fn with_digit(most: u64, number: u64, digit: u8) -> Option<u64>
    ensures value { result ≡ (if is_digit digit && nat_le (number * 10 + (digit - 48)) most
        then Some (number * 10 + (digit - 48)) else None) }
    ensures most { IfSome result (λ n. n ≤ most) }
{
    if digit < b'0' || b'9' < digit {
        return None;
    }
    let longer = number
        .checked_mul(10)?
        .checked_add(u64::from(digit - b'0'))?;
    if longer <= most { Some(longer) } else { None }
}
