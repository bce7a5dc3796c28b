//! Reading one symbol.
ghost use Rattle.std.specs.Prelude.{◌≡◌, ◌≤◌, ◌==◌, length};
ghost use Rattle.std.specs.List.{list_any, position_or_len};
ghost use Rattle.std.specs.Option.{option_map};
ghost use Rattle.aiger_io.specs.Reader.{capped_symbol, symbol_value, kind_of, is_bad_byte, is_bad_name, symbol_with as symbol_by, symbol_of};

use crate::item::LineKind;
use crate::number::number;

/// The content of a line that names an input, a latch or an output.
#[derive(Drop)]
pub struct Symbol<'a> {
    pub kind: LineKind,
    pub ordinal: u32,
    pub name: &'a [u8],
}

// The kind that a letter stands for.
fn kind(letter: u8) -> Option<LineKind>
    ensures { result ≡ kind_of letter }
{
    match letter {
        b'i' => Some(LineKind::Input),
        b'l' => Some(LineKind::Latch),
        b'o' => Some(LineKind::Output),
        _ => None,
    }
}

// The place of the first blank, or the length if there is none.
fn blank_place(row: &[u8]) -> usize
    ensures within { result ≤ length row.now }
    ensures value { result ≡ position_or_len (λ b. b == 32) row.now }
{
    for (i, b) in row.iter().enumerate() {
        if *b == b' ' {
            return i;
        }
    }
    row.len()
}

// The symbol with this text before the first blank and this name after it.
fn symbol_with<'a>(key: &[u8], name: &'a [u8]) -> Option<Symbol<'a>>
    ensures { option_map symbol_value result ≡ option_map capped_symbol (symbol_by key.now name.now) }
{
    if key.is_empty() || name.is_empty() {
        return None;
    }
    let ordinal = number(&key[1..])?;
    let kind = kind(key[0])?;
    Some(Symbol {
        kind,
        ordinal,
        name,
    })
}

/// The symbol on a line; `None` if and only if the line has another form. Time is linear in the line.
pub(crate) fn read_symbol<'a>(row: &'a [u8]) -> Option<Symbol<'a>>
    ensures { option_map symbol_value result ≡ option_map capped_symbol (symbol_of row.now) }
{
    let place = blank_place(row);
    if place == row.len() {
        return None;
    }
    symbol_with(&row[..place], &row[place + 1..])
}

fn has_bad_byte(name: &[u8]) -> bool
    ensures { result ≡ list_any is_bad_byte name.now }
{
    name.iter().any(|b| *b < 33 || *b == b'#' || *b == 127)
}

/// Whether the name can't be a word of a netlist. Time is linear in the name.
pub(crate) fn is_bad(name: &[u8]) -> bool
    ensures { result ≡ is_bad_name name.now }
{
    has_bad_byte(name) || (!name.is_empty() && name[name.len() - 1] == b'\\')
}
