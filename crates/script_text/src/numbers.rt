//! The numbers that words spell.
ghost use Rattle.std.specs.Prelude.{◌≡◌, ◌<◌, ◌≤◌, ◌-◌, IfSome, min, negsuc};
ghost use Rattle.std.specs.List.{list_all};
ghost use Rattle.script_text.specs.Terms.{decimal_value, integer_of, is_digit, is_whole, leads, number_in};

/// The largest number of a script, which is the largest of 63 bits.
pub(crate) const LARGEST: u64 = 9_223_372_036_854_775_807;

fn is_digit(byte: &u8) -> bool
    ensures { result ≡ is_digit byte.now }
{
    byte.is_ascii_digit()
}

fn are_digits(text: &[u8]) -> bool
    ensures { result ≡ list_all is_digit text.now }
{
    text.iter().all(is_digit)
}

/// Whether the text begins with another byte than 0.
fn leads(text: &[u8]) -> bool
    ensures { result ≡ leads text.now }
{
    match text {
        [first, ..] => *first != b'0',
        [] => false,
    }
}

/// Whether the text is decimal digits without a leading zero.
fn is_whole(text: &[u8]) -> bool
    ensures { result ≡ is_whole text.now }
{
    are_digits(text) && (text.len() == 1 || leads(text))
}

/// The number of digits, or the largest of 64 bits if that is less.
fn decimal_value(text: &[u8]) -> u64
    ensures { result ≡ min (decimal_value text.now) 0xFFFF_FFFF_FFFF_FFFF }
{
    let mut number: u64 = 0;
    'digits: for byte in text {
        let digit = u64::from(byte.saturating_sub(b'0'));
        number = number.saturating_mul(10).saturating_add(digit);
    }
    number
}

/// The whole number of a text, if it lies from `low` to `high`.
pub(crate) fn number_in(low: u64, high: u64, text: &[u8]) -> Option<u64>
    requires { high < 0xFFFF_FFFF_FFFF_FFFF }
    ensures value { result ≡ number_in low high text.now }
    ensures above { IfSome result (λ n. low ≤ n) }
    ensures within { IfSome result (λ n. n ≤ high) }
{
    if !is_whole(text) {
        return None;
    }
    let number = decimal_value(text);
    if low <= number && number <= high {
        Some(number)
    } else {
        None
    }
}

/// The whole number of a text, if it lies from `low` to `high`, where 32 bits are enough.
pub(crate) fn small_in(low: u32, high: u32, text: &[u8]) -> Option<u32>
    ensures value { result ≡ number_in low high text.now }
    ensures above { IfSome result (λ n. low ≤ n) }
    ensures within { IfSome result (λ n. n ≤ high) }
{
    let number = number_in(u64::from(low), u64::from(high), text)?;
    Some(number as u32)
}

/// The integer that lies so far below 0.
fn negative(number: u64) -> i64
    requires least { 1 ≤ number }
    requires most { number ≤ 0x8000_0000_0000_0000 }
    ensures { result ≡ negsuc (number - 1) }
{
    -((number - 1) as i64) - 1
}

/// The integer of a text, if it has 64 bits.
pub(crate) fn integer_of(text: &[u8]) -> Option<i64>
    ensures { result ≡ integer_of text.now }
{
    match text {
        [b'-', digits @ ..] => {
            let number = number_in(1, 1 << 63, digits)?;
            Some(negative(number))
        }
        _ => {
            let number = number_in(0, (1 << 63) - 1, text)?;
            Some(number as i64)
        }
    }
}
