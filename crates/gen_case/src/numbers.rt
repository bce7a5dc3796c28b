//! The numbers of the rounds, and the texts of their binary digits.
ghost use Rattle.std.specs.Prelude.{◌≡◌, ◌%◌, ◌^◌, ◌<◌, ◌≤◌};
ghost use Rattle.list_laws.specs.Digits.{digit as digit_of};
ghost use Rattle.gen_case.specs.Script.{first_coefficient as first_of, coefficient_of as round_coefficient, data_of as round_data, digit_text as text_of_digit};

use list_laws::digit;

// The number modulo 2^n.
fn low_digits(n: u32, number: u64) -> u32
    requires { n ≤ 32 }
    ensures { result ≡ number % 2 ^ n }
{
    (number % (1 << n)) as u32
}

// The coefficient before the first round.
pub fn first_coefficient(n: u32, seed: u32) -> u32
    requires { n ≤ 32 }
    ensures { result ≡ first_of n seed }
{
    low_digits(n, seed as u64)
}

// The coefficient of a round.
pub fn coefficient_of(n: u32, seed: u32, round: u32) -> u32
    requires digits { n ≤ 32 }
    requires round { round ≤ 100 }
    ensures { result ≡ round_coefficient n seed round }
{
    low_digits(n, seed as u64 + 2_654_435_761 * round as u64)
}

// The data of a round.
pub fn data_of(n: u32, seed: u32, round: u32) -> u32
    requires digits { n ≤ 32 }
    requires round { round ≤ 100 }
    ensures { result ≡ round_data n seed round }
{
    low_digits(n, seed as u64 + 40_503 * round as u64 * round as u64)
}

// The text of a binary digit of a number.
pub fn digit_text(value: u32, place: u32) -> &'static str
    requires { place < 32 }
    ensures { result.now ≡ text_of_digit (digit_of value place) }
{
    if digit(value, place) { "1" } else { "0" }
}
