//! The names of inputs and outputs.
ghost use Rattle.std.specs.Prelude.{◌≡◌, ◌+◌, ◌<◌, ◌^◌, ◌&&◌, ℕ, List, ◌++◌, length, [], unwrap_or, None, Some, IfOk, OnOk, MatchResult};
ghost use Rattle.tl_fault.specs.OrMemory.{OrMemory};
ghost use Rattle.tl_text.specs.NameSets.{has_name};
ghost use Rattle.aiger_io.specs.Reader.{twice_from, seen_from, named_count, default_name, names_from, input_names, output_names, port_names, is_port, is_twice, name_at, first_twice};
ghost use Rattle.aiger_io.specs.Refusals.{refusal_of};

use crate::aag_err::AagErr;
use crate::header::Header;
use crate::own_name::name_of;
use crate::symbols::{Symbols, symbol_at_place};
use std::alloc::{AllocError, Global};
use tl_text::{Name, NameIndex, TextKey};

// The name of the port with an ordinal, by its symbol or by default.
fn name_or_default(
    alloc: Global,
    letter: u8,
    ordinal: u32,
    name: &Option<Name>,
) -> Result<Name, AllocError>
    ensures { IfOk result (λ found. found ≡ unwrap_or name.now (default_name letter ordinal)) }
{
    match name {
        Some(name) => Name::make(alloc, name.bytes()),
        None => name_of(alloc, b"", letter, ordinal),
    }
}

// The names of all ports, by their symbols or by default.
fn all_names(alloc: Global, letter: u8, names: &[Option<Name>]) -> Result<Vec<Name>, AllocError>
    requires { length names.now < 2 ^ 32 }
    ensures { IfOk result (λ all. all.items ≡ names_from letter 0 names.now) }
{
    let mut all = Vec::new(alloc);
    let mut ordinal = 0;
    for name in names {
        all.push(name_or_default(alloc, letter, ordinal, name)?)?;
        ordinal += 1;
    }
    Ok(all)
}

/// The names of the inputs.
pub(crate) fn names_of_inputs(
    alloc: Global,
    header: &Header,
    said: &Symbols,
) -> Result<Vec<Name>, AllocError>
    requires few { named_count header.now < 2 ^ 32 }
    requires size { length said.now.names ≡ named_count header.now }
    ensures { IfOk result (λ names. names.items ≡ input_names header.now said.now) }
{
    all_names(alloc, b'i', &said.names[..header.inputs as usize])
}

/// The names of the outputs.
pub(crate) fn names_of_outputs(
    alloc: Global,
    header: &Header,
    said: &Symbols,
) -> Result<Vec<Name>, AllocError>
    requires few { named_count header.now < 2 ^ 32 }
    requires size { length said.now.names ≡ named_count header.now }
    ensures { IfOk result (λ names. names.items ≡ output_names header.now said.now) }
{
    let first = header.inputs as usize + header.latches as usize;
    all_names(alloc, b'o', &said.names[first..])
}

// Adds the names that occur twice among those seen and these names.
fn add_twice(
    alloc: Global,
    seen: &mut NameIndex,
    found: &mut NameIndex,
    names: &[Name],
) -> Result<(), AllocError>
    ensures found { OnOk result (found.new ≡ twice_from seen.old found.old names.now) }
    ensures seen { OnOk result (seen.new ≡ seen_from seen.old names.now) }
{
    for name in names {
        if seen.has(name.bytes()) {
            found.add_once(alloc, name.bytes())?;
        } else {
            seen.add_once(alloc, name.bytes())?;
        }
    }
    Ok(())
}

// The names that occur twice among inputs and outputs.
fn names_found_twice(
    alloc: Global,
    key: TextKey,
    inputs: &[Name],
    outputs: &[Name],
) -> Result<NameIndex, AllocError>
    ensures { IfOk result (λ found. (name : List ℕ) → has_name found name ≡ is_twice (inputs.now ++ outputs.now) name) }
{
    let mut seen = NameIndex::new(alloc, key);
    let mut found = NameIndex::new(alloc, key);
    add_twice(alloc, &mut seen, &mut found, inputs)?;
    add_twice(alloc, &mut seen, &mut found, outputs)?;
    Ok(found)
}

// Whether this is the place of an input or an output.
fn is_port_place(header: &Header, place: u32) -> bool
    ensures { result ≡ is_port header.now place }
{
    place < header.inputs || header.inputs as u64 + header.latches as u64 <= place as u64
}

// Whether the name at this place is that of an input or an output and is among those found.
fn is_found(header: &Header, said: &Symbols, found: &NameIndex, place: u32) -> bool
    ensures { result ≡ (is_port header.now place && has_name found.now (name_at said.now place)) }
{
    is_port_place(header, place) && found.has(symbol_at_place(said, place))
}

// Returns the first symbol whose name was found twice.
fn look_for(
    alloc: Global,
    header: &Header,
    line: u32,
    said: &Symbols,
    found: &NameIndex,
) -> Result<(), AagErr>
    requires twice { (name : List ℕ) → has_name found.now name ≡ is_twice (port_names header.now said.now) name }
    requires lines { line + length said.now.places < 2 ^ 32 }
    ensures { MatchResult result
        (λ _. first_twice header.now said.now line said.now.places ≡ None)
        (OrMemory refusal_of (λ e. first_twice header.now said.now line said.now.places ≡ Some e)) }
{
    let mut number = line;
    for place in &said.places {
        if is_found(header, said, found, *place) {
            let name = Name::make(alloc, symbol_at_place(said, *place))?;
            return Err(AagErr::BadSymbol(number, name));
        }
        number += 1;
    }
    Ok(())
}

/// Checks that all names of inputs and outputs differ, in a text of this key.
///
/// # Errors
/// A4 at the first symbol that also names another input or output; `Memory` if memory runs out.
pub(crate) fn check_names(
    alloc: Global,
    key: TextKey,
    header: &Header,
    line: u32,
    said: &Symbols,
    inputs: &[Name],
    outputs: &[Name],
) -> Result<(), AagErr>
    requires inputs { inputs.now ≡ input_names header.now said.now }
    requires outputs { outputs.now ≡ output_names header.now said.now }
    requires lines { line + length said.now.places < 2 ^ 32 }
    ensures { MatchResult result
        (λ _. first_twice header.now said.now line said.now.places ≡ None)
        (OrMemory refusal_of (λ e. first_twice header.now said.now line said.now.places ≡ Some e)) }
{
    let found = names_found_twice(alloc, key, inputs, outputs)?;
    look_for(alloc, header, line, said, &found)
}
