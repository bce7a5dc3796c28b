//! The logical lines of a text.
ghost use Rattle.std.specs.Prelude.{◌≡◌, ◌≤◌, ℕ, List, length, Ok, Err, MatchResult, IfOk};
ghost use Rattle.tl_fault.specs.OrMemory.{OrMemory};
ghost use Rattle.tl_text.specs.declared.logical_lines.TheConstants.{MOST_BYTES};
ghost use Rattle.tl_text.specs.Clean.{AreCleanIn};
ghost use Rattle.tl_text.specs.LineValue.{LineValue, AreLinesIn};
ghost use Rattle.tl_text.specs.Lines.{lines_of};
ghost use Rattle.tl_text.specs.Refusals.{refusal_of};
ghost use Rattle.tl_text.specs.Tokens.{AreRuns, tokens_at};

use crate::line::Line;
use crate::physical_line::cut_end;
use crate::reader::Reader;
use crate::text_err::TextErr;
use std::alloc::Global;

/// The most bytes in a text: 64 MiB.
pub const MOST_BYTES: usize = 67_108_864;

/// The logical lines of a text that have tokens, in order. The text has at most [`MOST_BYTES`] bytes. The time and the memory
/// are linear in the text.
///
/// # Errors
/// `BadByte` (T1) or `TrailingSlash` (T2) of the first physical line that has one; `BadByte` if it has both. `Memory` if
/// memory runs out.
pub fn lines(alloc: Global, text: &[u8]) -> Result<Vec<Line>, TextErr>
    requires { length text.now ≤ MOST_BYTES }
    ensures answer { MatchResult result (λ v. lines_of text.now ≡ Ok v.items) (OrMemory refusal_of (λ e. lines_of text.now ≡ Err e)) }
    ensures places { IfOk result (λ v. AreLinesIn text.now v.items) }
    ensures clean { IfOk result (λ v. AreCleanIn text.now v.items) }
    ensures always_clean { (found : List LineValue) → lines_of text.now ≡ Ok found → AreCleanIn text.now found }
    ensures runs { (at : ℕ) (bytes : List ℕ) → AreRuns at bytes (tokens_at at bytes) }
{
    let mut reader = Reader::new(alloc);
    let mut number = 1;
    let mut start = 0;
    for (i, b) in text.iter().enumerate() {
        if *b == b'\n' {
            let line = cut_end(&text[start..i], b'\r');
            reader.read(alloc, number, start as u32, line)?;
            number += 1;
            start = i + 1;
        }
    }
    reader.read(alloc, number, start as u32, &text[start..])?;
    Ok(reader.finish()?)
}
