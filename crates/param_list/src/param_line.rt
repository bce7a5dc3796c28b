//! A line of a parameter list.
ghost use Rattle.std.specs.Prelude.{◌≡◌, ◌<◌, ◌^◌, [], ◌∷◌, length, map, Some, None, MatchOption, MatchResult, slice_get};
ghost use Rattle.tl_fault.specs.OrMemory.{OrMemory};
ghost use Rattle.tl_text.specs.LineValue.{IsLineIn, token_bytes, words_line};
ghost use Rattle.param_list.specs.ParamsText.{entry_of, entry_refusal, line_refusal, IsParamOf};
ghost use Rattle.param_list.specs.Refusals.{refusal_of};
ghost use Rattle.param_list.specs.declared.par_err.ParErr.TheVariants.{Malformed};

use crate::par_err::ParErr;
use crate::params::Param;
use std::alloc::Global;
use tl_text::{Line, MOST_NAME_BYTES, MOST_PARAMETERS, Name, NameIndex, Token, bit};

// The two tokens of a list of two.
fn two(tokens: &[Token]) -> Option<(Token, Token)>
    ensures { MatchOption result (length tokens.now ≡ 2 → ⊥) (λ pair. tokens.now ≡ pair.0 ∷ pair.1 ∷ []) }
{
    if tokens.len() != 2 {
        return None;
    }
    Some((tokens[0], tokens[1]))
}

// The name and the value on a line.
fn entry(alloc: Global, text: &[u8], line: &Line) -> Result<(Name, bool), ParErr>
    requires { IsLineIn text.now line.now }
    ensures { MatchResult result
        (λ entry. entry_of (words_line text.now line.now).words ≡ Some (record { name = entry.0; init = entry.1 }))
        (OrMemory refusal_of (λ e. (entry_of (words_line text.now line.now).words ≡ None) × (e ≡ Malformed line.now.number))) }
{
    let Some((name, value)) = two(&line.tokens) else {
        return Err(ParErr::Malformed(line.number));
    };
    let Some(init) = bit(value.bytes(text)) else {
        return Err(ParErr::Malformed(line.number));
    };
    let name = Name::make(alloc, name.bytes(text))?;
    Ok((name, init))
}

// The parameter with a name and an initial value, or its refusal. `seen` has the names of the lines before.
fn param_of(
    inputs: &NameIndex,
    clocks: &NameIndex,
    seen: &NameIndex,
    number: u32,
    name: Name,
    init: bool,
) -> Result<Param, ParErr>
    requires { length inputs.now < 2 ^ 32 }
    ensures { MatchResult result
        (λ p. (entry_refusal inputs.now clocks.now seen.now number (Some (record { name = name; init = init })) ≡ None)
        × (p.name ≡ name) × (p.init ≡ init) × (slice_get inputs.now p.input ≡ Some name))
        (λ e. entry_refusal inputs.now clocks.now seen.now number (Some (record { name = name; init = init })) ≡ Some e) }
{
    if name.bytes().len() > MOST_NAME_BYTES || seen.len() >= MOST_PARAMETERS {
        return Err(ParErr::Parameters(number));
    }
    if clocks.has(name.bytes()) {
        return Err(ParErr::IsClock(number, name));
    }
    let Some(input) = inputs.place(name.bytes()) else {
        return Err(ParErr::NotInput(number, name));
    };
    if seen.has(name.bytes()) {
        return Err(ParErr::Repeated(number, name));
    }
    Ok(Param {
        name,
        input: input as u32,
        init,
    })
}

/// The parameter on a line. The names of the lines before it are given. Time is linear in the line, on average over the
/// hashes.
///
/// # Errors
/// The first of P1, L8, P2, P3 and P4 that the line has; `Memory` if memory runs out.
pub(crate) fn read_line(
    alloc: Global,
    text: &[u8],
    line: &Line,
    inputs: &NameIndex,
    clocks: &NameIndex,
    seen: &NameIndex,
) -> Result<Param, ParErr>
    requires within { IsLineIn text.now line.now }
    requires few { length inputs.now < 2 ^ 32 }
    ensures { MatchResult result
        (λ p. (line_refusal inputs.now clocks.now seen.now (words_line text.now line.now) ≡ None) × IsParamOf inputs.now (words_line text.now line.now) p)
        (OrMemory refusal_of (λ e. line_refusal inputs.now clocks.now seen.now (words_line text.now line.now) ≡ Some e)) }
{
    let (name, init) = entry(alloc, text, line)?;
    param_of(inputs, clocks, seen, line.number, name, init)
}
