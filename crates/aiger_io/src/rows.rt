//! The lines of a text, and the words of a line.
ghost use Rattle.std.specs.Prelude.{◌≡◌, ◌+◌, ◌==◌, ◌<◌, ◌≤◌, length, map, drop, slice_get, Some, IfOk};
ghost use Rattle.std.specs.List.{slice_split};
ghost use Rattle.std.specs.Str.Lines.{lines, strip_carriage_return};
ghost use Rattle.aiger_io.specs.Reader.{words_of};

use std::alloc::{AllocError, Global};

// The parts of a text between line feeds.
fn parts<'a>(alloc: Global, text: &'a [u8]) -> Result<Vec<&'a [u8]>, AllocError>
    ensures { IfOk result (λ parts. map (λ part. part.now) parts.items ≡ slice_split (λ b. b == 10) text.now) }
{
    text.split(|b| *b == b'\n').collect(alloc)
}

// The part before a line feed, without a carriage return at its end.
fn without_return<'a>(part: &'a [u8]) -> &'a [u8]
    ensures { result.now ≡ strip_carriage_return part.now }
{
    if part.is_empty() || part[part.len() - 1] != b'\r' {
        return part;
    }
    &part[..part.len() - 1]
}

/// The lines of a text. A line ends with a line feed or with the end of the text; a carriage return before a line feed is
/// dropped. Time and memory are linear in the text.
pub(crate) fn rows<'a>(alloc: Global, text: &'a [u8]) -> Result<Vec<&'a [u8]>, AllocError>
    ensures few { IfOk result (λ rows. length rows.items ≤ length text.now + 1) }
    ensures lines { IfOk result (λ rows. map (λ row. row.now) rows.items ≡ lines text.now) }
{
    let parts = parts(alloc, text)?;
    let mut rows = Vec::new(alloc);
    for (i, part) in parts.iter().enumerate() {
        if i + 1 < parts.len() {
            rows.push(without_return(part))?;
        } else if !part.is_empty() {
            rows.push(*part)?;
        }
    }
    Ok(rows)
}

/// The words of a line, separated by single blanks. Time and memory are linear in the line.
pub(crate) fn words<'a>(alloc: Global, row: &'a [u8]) -> Result<Vec<&'a [u8]>, AllocError>
    ensures { IfOk result (λ words. map (λ word. word.now) words.items ≡ words_of row.now) }
{
    row.split(|b| *b == b' ').collect(alloc)
}

/// The line at a place.
pub(crate) fn row_at<'a>(rows: &[&'a [u8]], place: usize) -> &'a [u8]
    requires { place < length rows.now }
    ensures { slice_get (map (λ row. row.now) rows.now) place ≡ Some result.now }
{
    rows[place]
}

/// The lines after the first `count`.
pub(crate) fn rows_behind<'a, 'b>(rows: &'b [&'a [u8]], count: usize) -> &'b [&'a [u8]]
    requires { count ≤ length rows.now }
    ensures rows { map (λ row. row.now) result.now ≡ drop count (map (λ row. row.now) rows.now) }
    ensures size { length result.now + count ≡ length rows.now }
{
    &rows[count..]
}
