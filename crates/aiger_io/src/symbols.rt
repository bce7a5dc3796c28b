//! Reading all symbols.
ghost use Rattle.std.specs.Prelude.{◌≡◌, ◌+◌, ◌<◌, ◌^◌, ◌&&◌, not, nat_lt, length, map, replicate, slice_index_or, Some, None, Ok, Err, IfOk, MatchResult, IsTrue};
ghost use Rattle.std.specs.Option.{is_some};
ghost use Rattle.tl_fault.specs.OrMemory.{OrMemory};
ghost use Rattle.aiger_io.specs.Reader.{AreSized, named_count, symbol_value, count_of, first_of, place_of, no_name, no_symbols, with_symbol, may_stand as may_stand_by, symbols_from, symbol_at, name_at};
ghost use Rattle.aiger_io.specs.Refusals.{refusal_of};

use crate::aag_err::AagErr;
use crate::header::Header;
use crate::item::LineKind;
use crate::symbol::{Symbol, is_bad, read_symbol};
use std::alloc::{AllocError, Global};
use std::marker::Model;
use tl_text::Name;

/// The symbols: the name at each place of an input, a latch or an output that has one, and the places in the order of the
/// lines.
#[derive(Drop)]
pub struct Symbols {
    pub names: Vec<Option<Name>>,
    pub places: Vec<u32>,
}

impl Model for Symbols {
    ghost use Rattle.aiger_io.specs.Reader.{SymbolsValue};

    ghost Value = { SymbolsValue };

    ghost view = { λ s. record { names = s.names.items; places = s.places.items } };
}

// `count` places without a name.
fn no_names(alloc: Global, count: u64) -> Result<Vec<Option<Name>>, AllocError>
    ensures { IfOk result (λ names. names.items ≡ replicate count no_name) }
{
    let mut names = Vec::new(alloc);
    for _ in 0..count {
        names.push(None)?;
    }
    Ok(names)
}

// The number of items of a kind that may have a symbol.
fn count(header: &Header, kind: LineKind) -> u32
    ensures { result ≡ count_of header.now kind }
{
    match kind {
        LineKind::Input => header.inputs,
        LineKind::Latch => header.latches,
        LineKind::Output => header.outputs,
        LineKind::And => 0,
    }
}

// The place of an ordinal.
fn place(header: &Header, s: &Symbol) -> u32
    requires below { s.now.ordinal < count_of header.now s.now.kind }
    requires few { named_count header.now < 2 ^ 32 }
    ensures value { result ≡ place_of header.now (symbol_value s.now) }
    ensures within { result < named_count header.now }
{
    match s.kind {
        LineKind::Input => s.ordinal,
        LineKind::Latch => header.inputs + s.ordinal,
        LineKind::Output => header.inputs + header.latches + s.ordinal,
        LineKind::And => 0,
    }
}

// Whether a symbol is allowed after others.
fn may_stand(header: &Header, said: &Symbols, s: &Symbol) -> bool
    requires few { named_count header.now < 2 ^ 32 }
    requires size { length said.now.names ≡ named_count header.now }
    ensures value { result ≡ may_stand_by header.now said.now (symbol_value s.now) }
    ensures below { IsTrue result → s.now.ordinal < count_of header.now s.now.kind }
{
    if s.ordinal >= count(header, s.kind) {
        return false;
    }
    let place = place(header, s) as usize;
    said.names[place].is_none() && !is_bad(s.name)
}

// Adds the symbol on a line.
fn add(
    alloc: Global,
    header: &Header,
    line: u32,
    said: &mut Symbols,
    s: &Symbol,
) -> Result<(), AagErr>
    requires few { named_count header.now < 2 ^ 32 }
    requires size { length said.old.names ≡ named_count header.now }
    ensures { MatchResult result
        (λ _. symbol_at header.now line said.old (Some (symbol_value s.now)) ≡ Ok said.new)
        (OrMemory refusal_of (λ e. symbol_at header.now line said.old (Some (symbol_value s.now)) ≡ Err e)) }
{
    let name = Name::make(alloc, s.name)?;
    if !may_stand(header, said, s) {
        return Err(AagErr::BadSymbol(line, name));
    }
    let place = place(header, s);
    said.names[place as usize] = Some(name);
    said.places.push(place)?;
    Ok(())
}

/// The symbol at a place; empty if there is none.
pub(crate) fn symbol_at_place(said: &Symbols, place: u32) -> &[u8]
    ensures { result.now ≡ name_at said.now place }
{
    match said.names.get(place as usize) {
        Some(Some(name)) => name.bytes(),
        _ => b"".as_slice(),
    }
}

/// The symbols on the lines after the items, up to the comment. The first of these lines has this number.
///
/// # Errors
/// A2 and A4 at the first line that has one, except for equal names; `Memory` if memory runs out.
pub(crate) fn read_symbols(
    alloc: Global,
    header: &Header,
    line: u32,
    rows: &[&[u8]],
) -> Result<Symbols, AagErr>
    requires few { named_count header.now < 2 ^ 32 }
    requires lines { line + length rows.now < 2 ^ 32 }
    ensures sized { IfOk result (λ said. AreSized header.now said (length rows.now)) }
    ensures symbols { MatchResult result
        (λ said. symbols_from header.now line (no_symbols header.now) (map (λ row. row.now) rows.now) ≡ Ok said)
        (OrMemory refusal_of (λ e. symbols_from header.now line (no_symbols header.now) (map (λ row. row.now) rows.now) ≡ Err e)) }
{
    let count = header.inputs as u64 + header.latches as u64 + header.outputs as u64;
    let mut said = Symbols {
        names: no_names(alloc, count)?,
        places: Vec::new(alloc),
    };
    let mut number = line;
    for row in rows {
        if *row == b"c".as_slice() {
            return Ok(said);
        }
        let Some(s) = read_symbol(row) else {
            return Err(AagErr::Malformed(number));
        };
        add(alloc, header, number, &mut said, &s)?;
        number += 1;
    }
    Ok(said)
}
