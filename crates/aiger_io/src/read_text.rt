//! Reading a whole text.
ghost use Rattle.std.specs.Prelude.{◌≡◌, ◌+◌, ◌≤◌, ◌<◌, ◌^◌, length, map, Err, IfOk, IfErr, MatchResult};
ghost use Rattle.netlist.specs.HasCleanNames.{HasCleanNames};
ghost use Rattle.netlist.specs.LibraryValue.{LibraryValue};
ghost use Rattle.netlist.specs.ShortPorts.{HasShortPorts};
ghost use Rattle.netlist.specs.WellFormed.{IsWellFormed};
ghost use Rattle.tl_fault.specs.OrMemory.{OrMemory};
ghost use Rattle.tl_text.specs.declared.logical_lines.TheConstants.{MOST_BYTES};
ghost use Rattle.aiger_io.specs.Reader.{named_count, AreSized, named_circuit, named_behind, circuit_under, circuit_of, IsLibraryIn, item_count};
ghost use Rattle.aiger_io.specs.Reading.{IsLibraryOf, HasOneReading, HasRunsOf};
ghost use Rattle.aiger_io.specs.Refused.{IsRefused};
ghost use Rattle.aiger_io.specs.Refusals.{refusal_of};

use crate::aag_err::AagErr;
use crate::header::{Header, read_header};
use crate::item::Item;
use crate::items::read_items;
use crate::model::library;
use crate::port_names::{check_names, names_of_inputs, names_of_outputs};
use crate::rows::{rows, rows_behind};
use crate::symbols::{Symbols, read_symbols};
use netlist::Library;
use std::alloc::Global;
use tl_text::TextKey;

// The library of items, and of the symbols after this line.
fn named_library(
    alloc: Global,
    key: TextKey,
    header: &Header,
    items: &[Item],
    line: u32,
    said: &Symbols,
) -> Result<Library, AagErr>
    requires line { line ≡ item_count header.now + 2 }
    requires few { length items.now + 2 < 2 ^ 32 }
    requires names { named_count header.now < 2 ^ 32 }
    requires size { length said.now.names ≡ named_count header.now }
    requires lines { line + length said.now.places < 2 ^ 32 }
    ensures { MatchResult result
        (IsLibraryIn (named_circuit header.now items.now said.now))
        (OrMemory refusal_of (λ e. named_circuit header.now items.now said.now ≡ Err e)) }
{
    let inputs = names_of_inputs(alloc, header, said)?;
    let outputs = names_of_outputs(alloc, header, said)?;
    check_names(alloc, key, header, line, said, &inputs, &outputs)?;
    let made = library(alloc, key, header, items, inputs, outputs)?;
    Ok(made)
}

// The library of items, given the lines after them.
fn library_with_symbols(
    alloc: Global,
    key: TextKey,
    header: &Header,
    items: &[Item],
    rows: &[&[u8]],
) -> Result<Library, AagErr>
    requires count { length items.now ≡ item_count header.now }
    requires few { length items.now + length rows.now + 3 < 2 ^ 32 }
    ensures { MatchResult result
        (IsLibraryIn (named_behind header.now items.now (map (λ row. row.now) rows.now)))
        (OrMemory refusal_of (λ e. named_behind header.now items.now (map (λ row. row.now) rows.now) ≡ Err e)) }
{
    let line = items.len() as u32 + 2;
    let said = read_symbols(alloc, header, line, rows)?;
    let made = named_library(alloc, key, header, items, line, &said)?;
    Ok(made)
}

// The library of a header, given the lines after it.
fn library_under(
    alloc: Global,
    key: TextKey,
    header: &Header,
    rows: &[&[u8]],
) -> Result<Library, AagErr>
    requires small { header.now.variables ≤ 2 ^ 30 }
    requires few { length rows.now + 3 < 2 ^ 32 }
    ensures { MatchResult result
        (IsLibraryIn (circuit_under (map (λ row. row.now) rows.now) header.now))
        (OrMemory refusal_of (λ e. circuit_under (map (λ row. row.now) rows.now) header.now ≡ Err e)) }
{
    let items = read_items(alloc, header, rows)?;
    let made = library_with_symbols(alloc, key, header, &items, rows_behind(rows, items.len()))?;
    Ok(made)
}

// The library of a text, or its first refusal.
fn library_of_text(alloc: Global, text: &[u8]) -> Result<Library, AagErr>
    requires { length text.now ≤ MOST_BYTES }
    ensures library { IfOk result (λ library. IsLibraryIn (circuit_of text.now) library) }
    ensures refusal { IfErr result (OrMemory refusal_of (λ e. circuit_of text.now ≡ Err e)) }
{
    let rows = rows(alloc, text)?;
    let header = read_header(alloc, &rows)?;
    let made = library_under(alloc, TextKey::of(text), &header, rows_behind(&rows, 1))?;
    Ok(made)
}

/// Reads the circuit of a text as a library: one model `aag`, with a cover or a latch for each line
/// (`specs/CircuitLibrary.antt`). Time and memory are linear in the text and in the library, on average over the hashes of
/// names. Names of the library can be longer than the lines of the text, if an input or an output has a name that begins with
/// many underscores.
///
/// # Errors
/// The first refusal of the text, by `specs/Refused.antt`: A1 and A5 of its header; otherwise A2, A3 and A4 of the first line
/// that has one; otherwise A4 of the first symbol that also names another input or output. `Memory` if memory runs out.
pub fn read_aag(alloc: Global, text: &[u8]) -> Result<Library, AagErr>
    requires { length text.now ≤ MOST_BYTES }

    // The result is the text's library, or its first refusal.
    ensures library { IfOk result (λ library. IsLibraryOf text.now library) }
    ensures refusal { IfErr result (OrMemory refusal_of (IsRefused text.now)) }

    // Whatever the call returns: a text is a circuit or is refused, never both, and has at most one of each.
    ensures one_reading { HasOneReading text.now }

    // Each library of the text has the cycles and runs of the text's circuit, which are defined by its lines alone
    // (`specs/Run.antt`). If it is sound, and so if it can be flattened, then for all values of inputs and latches there are
    // values of the circuit's variables that fit its lines, and any two agree on what the lines define.
    ensures runs { (library : LibraryValue) → IsLibraryOf text.now library → HasRunsOf text.now library }

    // Each library of the text is well formed, with clean names, one model, and short names of ports.
    ensures well_formed { (library : LibraryValue) → IsLibraryOf text.now library → IsWellFormed library }
    ensures clean { (library : LibraryValue) → IsLibraryOf text.now library → HasCleanNames library }
    ensures few { (library : LibraryValue) → IsLibraryOf text.now library → length library.models ≡ 1 }
    ensures short { (library : LibraryValue) → IsLibraryOf text.now library → HasShortPorts library }
{
    library_of_text(alloc, text)
}
