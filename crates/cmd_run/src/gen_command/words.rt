//! The arguments of `gen`.
ghost use Rattle.std.specs.Prelude.{◌≡◌, map, string_bytes, IfSome};
ghost use Rattle.cmd_run.specs.GenCommand.Case.{gen_words, gen_of, HasDigits};

use cover_pick::Rule;
use tl_text::decimal;

// The maximal number of digits, and the greatest seed.
const MOST_DIGITS: u64 = 32;

const MOST_SEED: u64 = 4_294_967_295;

/// The rule that chooses cuts, the number of digits of the multiplier's numbers, and the seed of its coefficients and data.
#[derive(Clone, Copy)]
pub struct GenWords {
    pub rule: Rule,
    pub digits: u32,
    pub seed: u32,
}

// The arguments of `gen`, if their numbers are in range.
fn assemble(rule: Rule, digits: Option<u64>, seed: Option<u64>) -> Option<GenWords>
    ensures value { result ≡ gen_words rule digits seed }
    ensures range { IfSome result HasDigits }
{
    let digits = digits?;
    let seed = seed?;
    if 1 <= digits && digits <= MOST_DIGITS && seed <= MOST_SEED {
        return Some(GenWords {
            rule,
            digits: digits as u32,
            seed: seed as u32,
        });
    }
    None
}

/// Reads the arguments `gen N SEED`, with N from 1 to 32 and SEED from 0 to 4294967295. `None` if and only if they have
/// another form.
pub fn read_gen(rule: Rule, words: &[String]) -> Option<GenWords>
    ensures value { result ≡ gen_of rule (map string_bytes words.now) }
    ensures range { IfSome result HasDigits }
{
    match words {
        [command, digits, seed] if command.as_str() == "gen" => {
            assemble(rule, decimal(digits.as_bytes()), decimal(seed.as_bytes()))
        }
        _ => None,
    }
}
