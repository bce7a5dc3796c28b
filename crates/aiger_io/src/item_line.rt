//! Reading the line of an input, a latch, an output or an AND gate.
ghost use Rattle.std.specs.Prelude.{◌≡◌, ◌+◌, ◌<◌, ◌≤◌, ◌^◌, map, Ok, Err, MatchResult};
ghost use Rattle.std.specs.Option.{option_map};
ghost use Rattle.tl_fault.specs.OrMemory.{OrMemory};
ghost use Rattle.aiger_io.specs.Reader.{capped, capped_item, kind_at, one_number, init_of, latch_with as latch_by, latch_of, and_of, item_of, is_literal, is_variable, is_in_range, item_at, number_of};
ghost use Rattle.aiger_io.specs.Refusals.{refusal_of};

use crate::aag_err::AagErr;
use crate::header::Header;
use crate::item::{Item, LineKind};
use crate::number::number;
use crate::rows::words;
use std::alloc::Global;

// The kind of the line at a place.
fn kind_of_place(header: &Header, place: u32) -> LineKind
    ensures { result ≡ kind_at header.now place }
{
    let place = place as u64;
    let latches = header.inputs as u64;
    let outputs = latches + header.latches as u64;
    let ands = outputs + header.outputs as u64;
    if place < latches {
        return LineKind::Input;
    }
    if place < outputs {
        return LineKind::Latch;
    }
    if place < ands {
        return LineKind::Output;
    }
    LineKind::And
}

// The literal of a line that has one.
fn literal(words: &[&[u8]]) -> Option<u32>
    ensures { result ≡ option_map capped (one_number (map (λ word. word.now) words.now)) }
{
    match words {
        [word] => number(word),
        _ => None,
    }
}

// The initial state in a word, for a latch with this literal.
fn init(own: &[u8], word: &[u8]) -> Option<bool>
    ensures { result ≡ init_of own.now word.now }
{
    if word == b"1".as_slice() {
        return Some(true);
    }
    if word == b"0".as_slice() || word == own {
        return Some(false);
    }
    None
}

// The latch with these words.
fn latch_with(own: &[u8], next: &[u8], start: Option<bool>) -> Option<Item>
    ensures { result ≡ option_map capped_item (latch_by (number_of own.now) (number_of next.now) start) }
{
    Some(Item::Latch(number(own)?, number(next)?, start?))
}

// The latch in the words of a line.
fn latch(words: &[&[u8]]) -> Option<Item>
    ensures { result ≡ option_map capped_item (latch_of (map (λ word. word.now) words.now)) }
{
    match words {
        [own, next] => latch_with(own, next, Some(false)),
        [own, next, start] => latch_with(own, next, init(own, start)),
        _ => None,
    }
}

// The AND gate in the words of a line.
fn gate(words: &[&[u8]]) -> Option<Item>
    ensures { result ≡ option_map capped_item (and_of (map (λ word. word.now) words.now)) }
{
    match words {
        [own, left, right] => Some(Item::And(number(own)?, number(left)?, number(right)?)),
        _ => None,
    }
}

// The content of a line of this kind.
fn item(kind: LineKind, words: &[&[u8]]) -> Option<Item>
    ensures { result ≡ option_map capped_item (item_of kind (map (λ word. word.now) words.now)) }
{
    match kind {
        LineKind::Input => Some(Item::Input(literal(words)?)),
        LineKind::Latch => latch(words),
        LineKind::Output => Some(Item::Output(literal(words)?)),
        LineKind::And => gate(words),
    }
}

// Whether a line may read a literal.
fn may_be_read(most: u32, l: u32) -> bool
    requires { most ≤ 2 ^ 30 }
    ensures { result ≡ is_literal most l }
{
    l <= 2 * most + 1
}

// Whether a line may define a literal.
fn may_be_defined(most: u32, l: u32) -> bool
    requires { most ≤ 2 ^ 30 }
    ensures { result ≡ is_variable most l }
{
    l % 2 == 0 && 2 <= l && l <= 2 * most
}

// Whether the literals of a line are in range.
fn in_range(most: u32, item: Item) -> bool
    requires { most ≤ 2 ^ 30 }
    ensures { result ≡ is_in_range most item }
{
    match item {
        Item::Input(own) => may_be_defined(most, own),
        Item::Latch(own, next, _) => may_be_defined(most, own) && may_be_read(most, next),
        Item::Output(l) => may_be_read(most, l),
        Item::And(own, left, right) => {
            may_be_defined(most, own) && may_be_read(most, left) && may_be_read(most, right)
        }
    }
}

/// The content of the line at a place.
///
/// # Errors
/// A2 if it has an invalid form, and A3 if a literal is out of range; `Memory` if memory runs out.
pub(crate) fn read_item(
    alloc: Global,
    header: &Header,
    place: u32,
    row: &[u8],
) -> Result<Item, AagErr>
    requires small { header.now.variables ≤ 2 ^ 30 }
    requires few { place + 2 < 2 ^ 32 }
    ensures { MatchResult result (λ item. item_at header.now place row.now ≡ Ok item) (OrMemory refusal_of (λ e. item_at header.now place row.now ≡ Err e)) }
{
    let words = words(alloc, row)?;
    let Some(item) = item(kind_of_place(header, place), &words) else {
        return Err(AagErr::Malformed(place + 2));
    };
    if !in_range(header.variables, item) {
        return Err(AagErr::Range(place + 2));
    }
    Ok(item)
}
