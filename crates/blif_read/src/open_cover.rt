//! A cover whose rows are being read.
ghost use Rattle.std.specs.Prelude.{◌≡◌, [], length, None, Some, MatchResult, MatchOption, IfOk};
ghost use Rattle.std.specs.Option.{option_map};
ghost use Rattle.blif_read.specs.Context.{row_of};
ghost use Rattle.blif_read.specs.LineFault.{mixed_fault, names_fault, row_fault, row_read_fault, same_bit};
ghost use Rattle.blif_read.specs.Reading.{ReadsUnless, cover_of, place_of_cover, value_so_far, with_row as cover_with_row, with_row_words};
ghost use Rattle.blif_read.specs.Refusals.{refusal_of};
ghost use Rattle.tl_fault.specs.OrMemory.{OrMemory};

use crate::blif_err::BlifErr;
use crate::row_line::{RowLine, row_line};
use netlist::{Cover, Row};
use std::alloc::{AllocError, Global};
use std::marker::Model;
use tl_text::Name;

/// A cover whose rows are being read.
#[derive(Drop)]
pub(crate) struct OpenCover {
    pub(crate) line: u32,
    pub(crate) cover: Cover,
}

impl Model for OpenCover {
    ghost use Rattle.blif_read.specs.Reading.{CoverRead};

    ghost Value = { CoverRead };

    ghost view = { λ c. record { line = c.line; cover = c.cover } };
}

/// The cover of a `.names` line, still without rows. `None` if the line has no names.
pub(crate) fn open_cover(alloc: Global, line: u32, mut names: Vec<Name>) -> Option<OpenCover>
    ensures { MatchOption result
        (names.items ≡ [])
        (λ c. (names_fault line names.items ≡ None) × (c ≡ record { line = line; cover = cover_of names.items })) }
{
    let output = names.pop()?;
    names.shrink_to_fit();
    let cover = Cover {
        inputs: names,
        output,
        value: true,
        rows: Vec::new(alloc),
    };
    Some(OpenCover { line, cover })
}

// Are two bits alike?
fn same(first: bool, second: bool) -> bool
    ensures { result ≡ same_bit first second }
{
    if first {
        return second;
    }
    !second
}

// Has a row the output character of the rows before it?
fn check_value(number: u32, cover: &Cover, value: bool) -> Result<(), BlifErr>
    ensures { MatchResult result
        (λ _. mixed_fault number (value_so_far cover.now) value ≡ None)
        (OrMemory refusal_of (λ e. mixed_fault number (value_so_far cover.now) value ≡ Some e)) }
{
    if cover.rows.is_empty() {
        return Ok(());
    }
    if same(cover.value, value) {
        return Ok(());
    }
    Err(BlifErr::MixedRows(number))
}

// The cover with a row after the others.
fn with_row(cover: Cover, row: RowLine) -> Result<Cover, AllocError>
    ensures { IfOk result (λ c. c ≡ cover_with_row cover (Some row)) }
{
    let Cover {
        inputs,
        output,
        value: _,
        mut rows,
    } = cover;
    let RowLine { cells, value } = row;
    rows.push(Row { cells })?;
    Ok(Cover {
        inputs,
        output,
        value,
        rows,
    })
}

// The cover with the row that a line's words are.
fn read_row(
    alloc: Global,
    number: u32,
    cover: OpenCover,
    words: &[Name],
) -> Result<OpenCover, BlifErr>
    ensures { ReadsUnless (row_read_fault number (value_so_far cover.cover) (row_of (length cover.cover.inputs) words.now))
        (λ c. c ≡ with_row_words words.now cover) result }
{
    let OpenCover { line, cover } = cover;
    let Some(row) = row_line(alloc, cover.inputs.len(), words)? else {
        return Err(BlifErr::BadRow(number));
    };
    check_value(number, &cover, row.value)?;
    let cover = with_row(cover, row)?;
    Ok(OpenCover { line, cover })
}

/// The cover that is being read, if any, with one more row, given by a line's words.
pub(crate) fn read_cover_row(
    alloc: Global,
    number: u32,
    cover: Option<OpenCover>,
    words: &[Name],
) -> Result<Option<OpenCover>, BlifErr>
    ensures { ReadsUnless (row_fault number (place_of_cover cover) words.now) (λ c. c ≡ option_map (with_row_words words.now) cover) result }
{
    match cover {
        None => Err(BlifErr::NotCommand(number)),
        Some(cover) => {
            let cover = read_row(alloc, number, cover, words)?;
            Ok(Some(cover))
        }
    }
}
