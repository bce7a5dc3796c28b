//! The content of one line of a certificate.
ghost use Rattle.std.specs.Prelude.{◌≡◌, ◌<◌, ◌≤◌, length, map, None, Some, MatchResult};
ghost use Rattle.std.specs.Option.{option_map};
ghost use Rattle.list_laws.specs.Members.{In};
ghost use Rattle.tl_fault.specs.OrMemory.{OrMemory};
ghost use Rattle.tl_text.specs.LineValue.{IsLineIn, IsWithin, token_bytes, words_line};
ghost use Rattle.tl_text.specs.declared.token.Token.{Token as TokenValue};
ghost use Rattle.cert_check.specs.CertText.{number_of, numbers_of, depth_with, claim_with, path_with, saying_by, said_of, saying_value};
ghost use Rattle.cert_check.specs.Refusals.{refusal_of};
ghost use Rattle.cert_check.specs.declared.cert_err.CertErr.TheVariants.{Malformed};

use crate::cert_err::CertErr;
use std::alloc::Global;
use tl_text::{Line, Token, decimal};

/// The content of a line.
#[derive(Debug, Drop)]
pub enum CertSaying {
    /// The depth of the certificate.
    Depth(u32),
    /// The claim for a node: the node's index and the depth.
    Claim(u32, u32),
    /// The nodes of a path, by their indices.
    Path(Vec<u32>),
}

// The number in a word, if it is one.
fn number(word: &[u8]) -> Option<u32>
    ensures { result ≡ number_of word.now }
{
    let number = decimal(word)?;
    if number > u32::MAX as u64 {
        return None;
    }
    Some(number as u32)
}

// The numbers in the tokens.
fn read_numbers(
    alloc: Global,
    text: &[u8],
    line: u32,
    tokens: &[Token],
) -> Result<Vec<u32>, CertErr>
    requires { (token : TokenValue) → In tokens.now token → IsWithin text.now token }
    ensures { MatchResult result
        (λ numbers. numbers_of (map (token_bytes text.now) tokens.now) ≡ Some numbers.items)
        (OrMemory refusal_of (λ e. (numbers_of (map (token_bytes text.now) tokens.now) ≡ None) × (e ≡ Malformed line))) }
{
    let mut numbers = Vec::new(alloc);
    for token in tokens {
        let Some(number) = number(token.bytes(text)) else {
            return Err(CertErr::Malformed(line));
        };
        numbers.push(number)?;
    }
    Ok(numbers)
}

// A depth: one number.
fn depth(numbers: &[u32]) -> Option<CertSaying>
    ensures { option_map saying_value result ≡ depth_with numbers.now }
{
    if numbers.len() != 1 {
        return None;
    }
    Some(CertSaying::Depth(numbers[0]))
}

// A claim: two numbers, the second one at least 1.
fn claim(numbers: &[u32]) -> Option<CertSaying>
    ensures { option_map saying_value result ≡ claim_with numbers.now }
{
    if numbers.len() != 2 {
        return None;
    }
    if numbers[1] == 0 {
        return None;
    }
    Some(CertSaying::Claim(numbers[0], numbers[1]))
}

// A path: two numbers or more.
fn path(numbers: Vec<u32>) -> Option<CertSaying>
    ensures { option_map saying_value result ≡ path_with numbers.items }
{
    if numbers.len() < 2 {
        return None;
    }
    Some(CertSaying::Path(numbers))
}

// The content of a line with this first word and the numbers after it.
fn saying_of(word: &[u8], numbers: Vec<u32>) -> Option<CertSaying>
    ensures { option_map saying_value result ≡ saying_by word.now numbers.items }
{
    if word == b"depth".as_slice() {
        return depth(&numbers);
    }
    if word == b"claim".as_slice() {
        return claim(&numbers);
    }
    if word == b"path".as_slice() {
        return path(numbers);
    }
    None
}

/// The content of a line. Time and memory are linear in the line.
///
/// # Errors
/// C1 if the line has none of the three forms; `Memory` if memory runs out.
pub(crate) fn read_saying(alloc: Global, text: &[u8], line: &Line) -> Result<CertSaying, CertErr>
    requires { IsLineIn text.now line.now }
    ensures { MatchResult result
        (λ saying. said_of (words_line text.now line.now).words ≡ Some (saying_value saying))
        (OrMemory refusal_of (λ e. (said_of (words_line text.now line.now).words ≡ None) × (e ≡ Malformed line.now.number))) }
{
    let tokens = line.tokens.as_slice();
    let word = tokens[0].bytes(text);
    let numbers = read_numbers(alloc, text, line.number, &tokens[1..])?;
    match saying_of(word, numbers) {
        Some(saying) => Ok(saying),
        None => Err(CertErr::Malformed(line.number)),
    }
}
