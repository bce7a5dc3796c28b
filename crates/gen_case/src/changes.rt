//! The parameter list and the script of a multiplier.
ghost use Rattle.std.specs.Prelude.{◌≡◌, ◌<◌, ◌≤◌, ◌∷◌, ◌++◌, OnOk, string_bytes, map};
ghost use Rattle.gen_case.specs.Lines.{line_text, text_of, below};
ghost use Rattle.gen_case.specs.Script.{param_lines, all_params, setting, digits_text, set_line, cycle_line, round_lines, rounds};
ghost use Rattle.gen_case.specs.Steps.{after_blanks};

use crate::net::{Bus, CaseNet};
use crate::numbers::{coefficient_of, data_of, digit_text, first_coefficient};
use std::alloc::AllocError;

// Adds a digit of the coefficient as a parameter.
fn add_param(text: &mut String, value: u32, place: u32) -> Result<(), AllocError>
    requires { place < 32 }
    ensures { OnOk result (string_bytes text.new ≡ string_bytes text.old ++ text_of (param_lines value place)) }
{
    write!(
        text,
        "{} {}\n",
        CaseNet::Digit(Bus::Coefficient, place),
        digit_text(value, place)
    )
}

// Adds all digits of the coefficient as parameters.
pub fn add_params(text: &mut String, n: u32, seed: u32) -> Result<(), AllocError>
    requires { n ≤ 32 }
    ensures { OnOk result (string_bytes text.new ≡ string_bytes text.old ++ text_of (all_params n seed)) }
{
    let value = first_coefficient(n, seed);
    for place in 0..n {
        add_param(text, value, place)?;
    }
    Ok(())
}

// Adds a blank and the setting of one digit of the coefficient.
fn add_setting(text: &mut String, value: u32, place: u32) -> Result<(), AllocError>
    requires { place < 32 }
    ensures { OnOk result (string_bytes text.new ≡ string_bytes text.old ++ 32 ∷ setting value place) }
{
    write!(
        text,
        " {}={}",
        CaseNet::Digit(Bus::Coefficient, place),
        digit_text(value, place)
    )
}

// Adds a setting for each digit of the coefficient, each after a blank.
fn add_settings(text: &mut String, n: u32, value: u32) -> Result<(), AllocError>
    requires { n ≤ 32 }
    ensures { OnOk result (string_bytes text.new ≡ string_bytes text.old ++ after_blanks (map (setting value) (below n))) }
{
    for place in 0..n {
        add_setting(text, value, place)?;
    }
    Ok(())
}

// Adds the digits of the data.
fn add_digits(text: &mut String, n: u32, value: u32) -> Result<(), AllocError>
    requires { n ≤ 32 }
    ensures { OnOk result (string_bytes text.new ≡ string_bytes text.old ++ digits_text n value) }
{
    for place in 0..n {
        text.push_str(digit_text(value, place))?;
    }
    Ok(())
}

// Adds a `set` of all digits of the coefficient.
fn add_set(text: &mut String, n: u32, value: u32) -> Result<(), AllocError>
    requires { n ≤ 32 }
    ensures { OnOk result (string_bytes text.new ≡ string_bytes text.old ++ line_text (set_line n value)) }
{
    text.push_str("set")?;
    add_settings(text, n, value)?;
    text.push_str("\n")?;
    Ok(())
}

// Adds a `cycle` with the digits of the data.
fn add_cycle(text: &mut String, n: u32, value: u32) -> Result<(), AllocError>
    requires { n ≤ 32 }
    ensures { OnOk result (string_bytes text.new ≡ string_bytes text.old ++ line_text (cycle_line n value)) }
{
    text.push_str("cycle ")?;
    add_digits(text, n, value)?;
    text.push_str("\n")?;
    Ok(())
}

// Adds the two events of a round.
fn add_round(text: &mut String, n: u32, seed: u32, round: u32) -> Result<(), AllocError>
    requires digits { n ≤ 32 }
    requires round { round ≤ 100 }
    ensures { OnOk result (string_bytes text.new ≡ string_bytes text.old ++ text_of (round_lines n seed round)) }
{
    add_set(text, n, coefficient_of(n, seed, round))?;
    add_cycle(text, n, data_of(n, seed, round))
}

// Adds the events of the rounds from 1 to `count`.
pub fn add_rounds(text: &mut String, n: u32, seed: u32, count: u32) -> Result<(), AllocError>
    requires digits { n ≤ 32 }
    requires rounds { count ≤ 100 }
    ensures { OnOk result (string_bytes text.new ≡ string_bytes text.old ++ text_of (rounds n seed count)) }
{
    for round in 1..count + 1 {
        add_round(text, n, seed, round)?;
    }
    Ok(())
}
