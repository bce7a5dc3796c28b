//! The rows of covers in a text.
ghost use Rattle.std.specs.Prelude.{◌≡◌, ℕ, ◌∷◌, [], length, IfOk};
ghost use Rattle.std.specs.Option.{option_map};
ghost use Rattle.tl_text.specs.Decimal.{bit_of};
ghost use Rattle.blif_read.specs.Context.{cell_of, cells_of, row_of};

use netlist::Cell;
use std::alloc::{AllocError, Global};
use std::marker::Model;
use tl_text::Name;

/// A row of a text: its cells and its output character.
#[derive(Drop)]
pub(crate) struct RowLine {
    pub(crate) cells: Vec<Cell>,
    pub(crate) value: bool,
}

impl Model for RowLine {
    ghost use Rattle.blif_read.specs.Context.{RowRead};

    ghost Value = { RowRead };

    ghost view = { λ r. record { cells = r.cells.items; value = r.value } };
}

// The bit that a word writes.
fn bit(word: &[u8]) -> Option<bool>
    ensures { result ≡ bit_of word.now }
{
    if word == b"0".as_slice() {
        Some(false)
    } else if word == b"1".as_slice() {
        Some(true)
    } else {
        None
    }
}

// The cell that a byte writes.
fn cell(byte: u8) -> Option<Cell>
    ensures { result ≡ cell_of byte }
{
    match byte {
        b'0' => Some(Cell::Zero),
        b'1' => Some(Cell::One),
        b'-' => Some(Cell::Any),
        _ => None,
    }
}

// The cells that a word writes.
fn cells(alloc: Global, word: &[u8]) -> Result<Option<Vec<Cell>>, AllocError>
    ensures { IfOk result (λ cells. option_map (λ v. v.items) cells ≡ cells_of word.now) }
{
    let mut done = Vec::new(alloc);
    for byte in word {
        match cell(*byte) {
            None => return Ok(None),
            Some(cell) => done.push(cell)?,
        }
    }
    Ok(Some(done))
}

// The row that two words are.
fn two_words(
    alloc: Global,
    inputs: usize,
    word: &[u8],
    output: &[u8],
) -> Result<Option<RowLine>, AllocError>
    ensures { IfOk result (λ row. row ≡ row_of inputs (word.now ∷ output.now ∷ [])) }
{
    if inputs == 0 || word.len() != inputs {
        return Ok(None);
    }
    let Some(cells) = cells(alloc, word)? else {
        return Ok(None);
    };
    match bit(output) {
        None => Ok(None),
        Some(value) => Ok(Some(RowLine { cells, value })),
    }
}

// The row that one word is.
fn one_word(alloc: Global, inputs: usize, output: &[u8]) -> Option<RowLine>
    ensures { result ≡ row_of inputs (output.now ∷ []) }
{
    if inputs != 0 {
        return None;
    }
    match bit(output) {
        None => None,
        Some(value) => Some(RowLine {
            cells: Vec::new(alloc),
            value,
        }),
    }
}

/// The row given by words, for a cover with this many inputs. `None` if the row is malformed.
pub(crate) fn row_line(
    alloc: Global,
    inputs: usize,
    words: &[Name],
) -> Result<Option<RowLine>, AllocError>
    ensures { IfOk result (λ row. row ≡ row_of inputs words.now) }
{
    match words {
        [output] => Ok(one_word(alloc, inputs, output.bytes())),
        [word, output] => two_words(alloc, inputs, word.bytes(), output.bytes()),
        _ => Ok(None),
    }
}
