//! Decimal numbers of any length.
ghost use Rattle.std.specs.Prelude.{◌≡◌};
ghost use Rattle.std.specs.List.{list_all};
ghost use Rattle.tl_text.specs.Decimal.{is_digit, is_decimal};
ghost use Rattle.aiger_io.specs.Reader.{capped_number};

use tl_text::decimal;

// Whether all bytes are digits.
fn are_digits(word: &[u8]) -> bool
    ensures { result ≡ list_all is_digit word.now }
{
    word.iter().all(|b| b'0' <= *b && *b <= b'9')
}

// Whether a word is a decimal number.
fn is_number(word: &[u8]) -> bool
    ensures { result ≡ is_decimal word.now }
{
    !word.is_empty() && are_digits(word) && (word[0] != b'0' || word.len() == 1)
}

/// The decimal number in a word, or 4,294,967,295 if it is greater. `None` if the word isn't a number. Time is linear in the
/// word.
pub(crate) fn number(word: &[u8]) -> Option<u32>
    ensures { result ≡ capped_number word.now }
{
    if !is_number(word) {
        return None;
    }
    match decimal(word) {
        Some(number) => Some(number.min(4_294_967_295) as u32),
        None => Some(4_294_967_295),
    }
}
