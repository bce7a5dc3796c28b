//! The word of a script that has the values of a cycle.
ghost use Rattle.std.specs.Prelude.{◌≡◌, None, Some, MatchResult};
ghost use Rattle.tl_fault.specs.OrMemory.{OrMemory};
ghost use Rattle.run_text.specs.EventValue.{each_of};
ghost use Rattle.run_text.specs.Sayings.{digit_bit, bits_of};
ghost use Rattle.run_text.specs.ScriptRefusals.{refusal_of};
ghost use Rattle.run_text.specs.declared.script_err.ScriptErr.TheVariants.{Malformed};

use crate::script_err::ScriptErr;
use std::alloc::Global;

fn digit_value(digit: u8) -> Option<bool>
    ensures { result ≡ digit_bit digit }
{
    if digit == b'0' {
        return Some(false);
    }
    if digit == b'1' {
        return Some(true);
    }
    None
}

// The values of a string of digits.
fn read_digits(alloc: Global, number: u32, word: &[u8]) -> Result<Vec<bool>, ScriptErr>
    ensures { MatchResult result
        (λ values. each_of digit_bit word.now ≡ Some values.items)
        (OrMemory refusal_of (λ e. (each_of digit_bit word.now ≡ None) × (e ≡ Malformed number))) }
{
    let mut values = Vec::new(alloc);
    for digit in word {
        let Some(value) = digit_value(*digit) else {
            return Err(ScriptErr::Malformed(number));
        };
        values.push(value)?;
    }
    Ok(values)
}

/// The values of a word: a string of `0` and `1`, or `-` for none. Time is linear in the word.
///
/// # Errors
/// S1 if it is neither; `Memory` if memory runs out.
pub(crate) fn read_values(alloc: Global, number: u32, word: &[u8]) -> Result<Vec<bool>, ScriptErr>
    ensures { MatchResult result
        (λ values. bits_of word.now ≡ Some values.items)
        (OrMemory refusal_of (λ e. (bits_of word.now ≡ None) × (e ≡ Malformed number))) }
{
    if word == b"-".as_slice() {
        return Ok(Vec::new(alloc));
    }
    read_digits(alloc, number, word)
}
