//! The words `NAME=BIT` of a line of a script.
ghost use Rattle.std.specs.Prelude.{◌≡◌, ◌≤◌, None, Some, MatchOption, MatchResult, IfOk, map};
ghost use Rattle.list_laws.specs.Members.{In};
ghost use Rattle.tl_fault.specs.OrMemory.{OrMemory};
ghost use Rattle.tl_text.specs.LineValue.{IsWithin, token_bytes};
ghost use Rattle.tl_text.specs.declared.token.Token.{Token as TokenValue};
ghost use Rattle.run_text.specs.EventValue.{each_of};
ghost use Rattle.run_text.specs.Sayings.{split_last as halves, setting_of, settings_of};
ghost use Rattle.run_text.specs.ScriptRefusals.{refusal_of};
ghost use Rattle.run_text.specs.declared.script_err.ScriptErr.TheVariants.{Malformed};

use crate::script_err::ScriptErr;
use std::alloc::{AllocError, Global};
use tl_text::{Name, Token, bit};

/// A value for a parameter.
#[derive(Debug, Drop)]
pub struct Setting {
    pub name: Name,
    pub bit: bool,
}

// The parts of a word before and after its last `=`.
fn split_last(word: &[u8]) -> Option<(&[u8], &[u8])>
    ensures { MatchOption result (halves word.now ≡ None) (λ pair. halves word.now ≡ Some (record { front = pair.0.now; back = pair.1.now })) }
{
    match word.iter().rposition(|b| *b == b'=') {
        None => None,
        Some(place) => Some((&word[..place], &word[place + 1..])),
    }
}

// The setting in a word, if it is one.
fn read_setting(alloc: Global, word: &[u8]) -> Result<Option<Setting>, AllocError>
    ensures { IfOk result (λ setting. setting ≡ setting_of word.now) }
{
    let Some((name, value)) = split_last(word) else {
        return Ok(None);
    };
    if name.is_empty() {
        return Ok(None);
    }
    let Some(bit) = bit(value) else {
        return Ok(None);
    };
    let name = Name::make(alloc, name)?;
    Ok(Some(Setting { name, bit }))
}

// The settings in the tokens.
fn read_each(
    alloc: Global,
    text: &[u8],
    number: u32,
    tokens: &[Token],
) -> Result<Vec<Setting>, ScriptErr>
    requires { (token : TokenValue) → In tokens.now token → IsWithin text.now token }
    ensures { MatchResult result
        (λ settings. each_of setting_of (map (token_bytes text.now) tokens.now) ≡ Some settings.items)
        (OrMemory refusal_of (λ e. (each_of setting_of (map (token_bytes text.now) tokens.now) ≡ None) × (e ≡ Malformed number))) }
{
    let mut settings = Vec::new(alloc);
    for token in tokens {
        let Some(setting) = read_setting(alloc, token.bytes(text))? else {
            return Err(ScriptErr::Malformed(number));
        };
        settings.push(setting)?;
    }
    Ok(settings)
}

/// The settings in the tokens after `set`, one or more. Time is linear in them.
///
/// # Errors
/// S1 if a token isn't a setting; `Memory` if memory runs out.
pub(crate) fn read_settings(
    alloc: Global,
    text: &[u8],
    number: u32,
    tokens: &[Token],
) -> Result<Vec<Setting>, ScriptErr>
    requires { (token : TokenValue) → In tokens.now token → IsWithin text.now token }
    ensures { MatchResult result
        (λ settings. settings_of (map (token_bytes text.now) tokens.now) ≡ Some settings.items)
        (OrMemory refusal_of (λ e. (settings_of (map (token_bytes text.now) tokens.now) ≡ None) × (e ≡ Malformed number))) }
{
    if tokens.is_empty() {
        return Err(ScriptErr::Malformed(number));
    }
    read_each(alloc, text, number, tokens)
}
