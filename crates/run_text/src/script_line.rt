//! A line of a script.
ghost use Rattle.std.specs.Prelude.{◌≡◌, ◌≤◌, ◌<◌, length, map, None, Some, MatchOption, MatchResult};
ghost use Rattle.std.specs.Option.{option_map, option_and_then};
ghost use Rattle.list_laws.specs.Members.{In};
ghost use Rattle.tl_text.specs.declared.limits.TheConstants.{MOST_PARAMETERS};
ghost use Rattle.tl_fault.specs.OrMemory.{OrMemory};
ghost use Rattle.tl_text.specs.LineValue.{IsLineIn, IsWithin, token_bytes, words_line};
ghost use Rattle.tl_text.specs.declared.token.Token.{Token as TokenValue};
ghost use Rattle.run_text.specs.EventValue.{event_value};
ghost use Rattle.run_text.specs.Sayings.{sets, cycles, upsets, settings_of, bits_of, address_of, only as only_word, form_of, said_by};
ghost use Rattle.run_text.specs.ScriptText.{Reads, line_refusal, line_event};
ghost use Rattle.run_text.specs.ScriptRefusals.{refusal_of};
ghost use Rattle.run_text.specs.declared.script_err.ScriptErr.TheVariants.{Malformed};

use crate::assigns::read_assigns;
use crate::cycle_values::read_values;
use crate::event::{Event, Forms, MOST_EVENTS, ScriptNames};
use crate::script_err::ScriptErr;
use crate::setting::read_settings;
use std::alloc::Global;
use tl_text::{Line, NameIndex, Token, decimal};

// The word of the token, if it is the only one.
fn only<'a>(text: &'a [u8], tokens: &[Token]) -> Option<&'a [u8]>
    requires { (token : TokenValue) → In tokens.now token → IsWithin text.now token }
    ensures { MatchOption result (only_word (map (token_bytes text.now) tokens.now) ≡ None)
        (λ word. only_word (map (token_bytes text.now) tokens.now) ≡ Some word.now) }
{
    if tokens.len() != 1 {
        return None;
    }
    Some(tokens[0].bytes(text))
}

// The event of a `set` line, given the tokens after `set`.
fn read_set(
    alloc: Global,
    text: &[u8],
    number: u32,
    names: &ScriptNames,
    params: &NameIndex,
    tokens: &[Token],
) -> Result<Event, ScriptErr>
    requires within { (token : TokenValue) → In tokens.now token → IsWithin text.now token }
    requires few { length params.now ≤ MOST_PARAMETERS }
    requires same { params.now ≡ names.now.params }
    ensures { Reads names.now number (option_map sets (settings_of (map (token_bytes text.now) tokens.now))) result }
{
    let settings = read_settings(alloc, text, number, tokens)?;
    let assigns = read_assigns(alloc, number, params, &settings)?;
    Ok(Event::Set(assigns))
}

// The cycle with the values of a word.
fn cycle(alloc: Global, number: u32, names: &ScriptNames, word: &[u8]) -> Result<Event, ScriptErr>
    ensures { Reads names.now number (option_map cycles (bits_of word.now)) result }
{
    let values = read_values(alloc, number, word)?;
    let Some(width) = names.width else {
        return Err(ScriptErr::NotHere(number));
    };
    if values.len() != width as usize {
        return Err(ScriptErr::Width(number, width));
    }
    Ok(Event::Cycle(values))
}

// The event of a `cycle` line, given the tokens after `cycle`.
fn read_cycle(
    alloc: Global,
    text: &[u8],
    number: u32,
    names: &ScriptNames,
    tokens: &[Token],
) -> Result<Event, ScriptErr>
    requires { (token : TokenValue) → In tokens.now token → IsWithin text.now token }
    ensures { Reads names.now number (option_map cycles (option_and_then bits_of (only_word (map (token_bytes text.now) tokens.now)))) result }
{
    match only(text, tokens) {
        None => Err(ScriptErr::Malformed(number)),
        Some(word) => cycle(alloc, number, names, word),
    }
}

// The address that a word states.
fn address(word: &[u8]) -> Option<u32>
    ensures { result ≡ address_of word.now }
{
    let number = decimal(word)?;
    if number > u32::MAX as u64 {
        return None;
    }
    Some(number as u32)
}

// The upset at the address that a word states.
fn upset(number: u32, names: &ScriptNames, word: &[u8]) -> Result<Event, ScriptErr>
    ensures { Reads names.now number (option_map upsets (address_of word.now)) result }
{
    let Some(address) = address(word) else {
        return Err(ScriptErr::Malformed(number));
    };
    if address >= names.bits {
        return Err(ScriptErr::Address(number, names.bits));
    }
    Ok(Event::Upset(address))
}

// The event of an `upset` line, given the tokens after `upset`.
fn read_upset(
    text: &[u8],
    number: u32,
    names: &ScriptNames,
    tokens: &[Token],
) -> Result<Event, ScriptErr>
    requires { (token : TokenValue) → In tokens.now token → IsWithin text.now token }
    ensures { Reads names.now number (option_map upsets (option_and_then address_of (only_word (map (token_bytes text.now) tokens.now)))) result }
{
    match only(text, tokens) {
        None => Err(ScriptErr::Malformed(number)),
        Some(word) => upset(number, names, word),
    }
}

// An event whose line has no further tokens.
fn read_alone(event: Event, number: u32, tokens: &[Token]) -> Result<Event, ScriptErr>
    ensures { MatchResult result
        (λ e. (length tokens.now ≡ 0) × (e ≡ event))
        (λ e. (0 < length tokens.now) × (e ≡ Malformed number)) }
{
    if !tokens.is_empty() {
        return Err(ScriptErr::Malformed(number));
    }
    Ok(event)
}

// The event of a line with this first word and the tokens after it.
fn read_event(
    alloc: Global,
    text: &[u8],
    number: u32,
    names: &ScriptNames,
    params: &NameIndex,
    word: &[u8],
    tokens: &[Token],
) -> Result<Event, ScriptErr>
    requires within { (token : TokenValue) → In tokens.now token → IsWithin text.now token }
    requires few { length params.now ≤ MOST_PARAMETERS }
    requires same { params.now ≡ names.now.params }
    ensures { Reads names.now number (said_by word.now (map (token_bytes text.now) tokens.now)) result }
{
    if word == b"set".as_slice() {
        return read_set(alloc, text, number, names, params, tokens);
    }
    if word == b"cycle".as_slice() {
        return read_cycle(alloc, text, number, names, tokens);
    }
    if word == b"upset".as_slice() {
        return read_upset(text, number, names, tokens);
    }
    if word == b"scrub".as_slice() {
        return read_alone(Event::Scrub, number, tokens);
    }
    if word == b"image".as_slice() {
        return read_alone(Event::Image, number, tokens);
    }
    Err(ScriptErr::Malformed(number))
}

// The word of [`Forms::Run`] for the same event as `word` in these forms; empty if there is none.
fn form(forms: Forms, word: &[u8]) -> &[u8]
    ensures { result.now ≡ form_of forms word.now }
{
    match forms {
        Forms::Run => word,
        Forms::Pace => {
            if word == b"ask".as_slice() {
                return b"set".as_slice();
            }
            if word == b"tick".as_slice() {
                return b"cycle".as_slice();
            }
            b"".as_slice()
        }
    }
}

/// The event of a line after `earlier` others, given an index of the names of the parameters. Time is linear in the line, on
/// average over the hashes.
///
/// # Errors
/// The first of L7, S1, S6 and S2 that the line has, or of S3 and S4 setting by setting, or S5; `Memory` if memory runs out.
pub(crate) fn read_line(
    alloc: Global,
    text: &[u8],
    line: &Line,
    names: &ScriptNames,
    params: &NameIndex,
    earlier: usize,
) -> Result<Event, ScriptErr>
    requires within { IsLineIn text.now line.now }
    requires few { length params.now ≤ MOST_PARAMETERS }
    requires same { params.now ≡ names.now.params }
    ensures { MatchResult result
        (λ event. (line_refusal names.now earlier (words_line text.now line.now) ≡ None)
        × (line_event names.now (words_line text.now line.now) ≡ Some (event_value event)))
        (OrMemory refusal_of (λ e. line_refusal names.now earlier (words_line text.now line.now) ≡ Some e)) }
{
    if earlier >= MOST_EVENTS {
        return Err(ScriptErr::Events(line.number));
    }
    let tokens = line.tokens.as_slice();
    let word = form(names.forms, tokens[0].bytes(text));
    read_event(alloc, text, line.number, names, params, word, &tokens[1..])
}
