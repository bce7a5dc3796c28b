//! Decimal numbers and bits in texts.
ghost use Rattle.std.specs.Prelude.{◌≡◌, ◌+◌, ◌*◌, ◌^◌, ◌<◌, SomeIff};
ghost use Rattle.tl_text.specs.Decimal.{decimal_of, bit_of};

// The number with one more digit, where it is below 2^64.
fn with_digit(number: u64, digit: u8) -> Option<u64>
    ensures { SomeIff result (10 * number + digit < 2 ^ 64) (10 * number + digit) }
{
    number.checked_mul(10)?.checked_add(digit as u64)
}

/// The number that a text spells: `0`, or a digit 1 to 9 followed by any digits. `None` exactly when the text has another
/// form or its number is 2^64 or more. The time is linear in the text.
pub fn decimal(text: &[u8]) -> Option<u64>
    ensures { result ≡ decimal_of text.now }
{
    if text.is_empty() || (text[0] == b'0' && text.len() != 1) {
        return None;
    }
    let mut number: u64 = 0;
    for b in text {
        if *b < b'0' || *b > b'9' {
            return None;
        }
        match with_digit(number, *b - b'0') {
            Some(longer) => number = longer,
            None => return None,
        }
    }
    Some(number)
}

/// The bit that a text spells: `0` or `1`. `None` for any other text. It takes constant time.
pub fn bit(text: &[u8]) -> Option<bool>
    ensures { result ≡ bit_of text.now }
{
    if text == b"0".as_slice() {
        return Some(false);
    }
    if text == b"1".as_slice() {
        return Some(true);
    }
    None
}
