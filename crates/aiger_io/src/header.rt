//! The header line.
ghost use Rattle.std.specs.Prelude.{◌≡◌, ◌<◌, length, map, Ok, Err, IfOk, MatchResult};
ghost use Rattle.tl_fault.specs.OrMemory.{OrMemory};
ghost use Rattle.std.specs.Option.{option_map};
ghost use Rattle.aiger_io.specs.Reader.{capped_numbers, capped_result, IsHeaderOf, is_header, header_with, header_of, header_in};
ghost use Rattle.aiger_io.specs.Refusals.{refusal_of};

use crate::aag_err::AagErr;
use crate::number::number;
use crate::rows::{row_at, rows_behind, words};
use std::alloc::{AllocError, Global};

/// The header: the greatest variable, and the numbers of inputs, latches, outputs and AND gates.
#[derive(Clone, Copy, Debug, PartialEq, Eq)]
pub struct Header {
    pub variables: u32,
    pub inputs: u32,
    pub latches: u32,
    pub outputs: u32,
    pub ands: u32,
}

// The numbers in the words, or `None` if a word isn't a number.
fn numbers(alloc: Global, words: &[&[u8]]) -> Result<Option<Vec<u32>>, AllocError>
    ensures { IfOk result (λ found. option_map (λ numbers. numbers.items) found ≡ capped_numbers (map (λ word. word.now) words.now)) }
{
    let mut numbers = Vec::new(alloc);
    for word in words {
        let Some(number) = number(word) else {
            return Ok(None);
        };
        numbers.push(number)?;
    }
    Ok(Some(numbers))
}

// Whether the numbers of a header are consistent.
fn is_whole(h: &Header) -> bool
    ensures { result ≡ is_header h.now }
{
    h.variables <= 1_073_741_824
        && h.inputs as u64 + h.latches as u64 + h.ands as u64 <= h.variables as u64
}

// The header with these numbers.
fn header_of_numbers(numbers: &[u32]) -> Result<Header, AagErr>
    ensures { result ≡ header_with numbers.now }
{
    match numbers {
        [variables, inputs, latches, outputs, ands] => {
            let header = Header {
                variables: *variables,
                inputs: *inputs,
                latches: *latches,
                outputs: *outputs,
                ands: *ands,
            };
            if is_whole(&header) {
                return Ok(header);
            }
            Err(AagErr::Header)
        }
        _ => {
            if 6 <= numbers.len() && numbers.len() <= 9 {
                return Err(AagErr::Unsupported);
            }
            Err(AagErr::Header)
        }
    }
}

// The header in the words of a line.
fn header_of_words(alloc: Global, words: &[&[u8]]) -> Result<Header, AagErr>
    ensures { MatchResult result
        (λ header. capped_result (header_of (map (λ word. word.now) words.now)) ≡ Ok header)
        (OrMemory refusal_of (λ e. capped_result (header_of (map (λ word. word.now) words.now)) ≡ Err e)) }
{
    if words.is_empty() {
        return Err(AagErr::Header);
    }
    let word = row_at(words, 0);
    if word != b"aag".as_slice() {
        return Err(AagErr::Header);
    }
    match numbers(alloc, rows_behind(words, 1))? {
        None => Err(AagErr::Header),
        Some(numbers) => header_of_numbers(&numbers),
    }
}

/// The header of a text, given its lines.
///
/// # Errors
/// A1 and A5; `Memory` if memory runs out.
pub(crate) fn read_header(alloc: Global, rows: &[&[u8]]) -> Result<Header, AagErr>
    ensures some { IfOk result (λ _. 0 < length rows.now) }
    ensures read { MatchResult result
        (IsHeaderOf (map (λ row. row.now) rows.now))
        (OrMemory refusal_of (λ e. header_in (map (λ row. row.now) rows.now) ≡ Err e)) }
{
    if rows.is_empty() {
        return Err(AagErr::Header);
    }
    let words = words(alloc, row_at(rows, 0))?;
    let header = header_of_words(alloc, &words)?;
    Ok(header)
}
