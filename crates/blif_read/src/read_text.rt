//! The library that a text denotes.
ghost use Rattle.std.specs.Prelude.{◌≡◌, Some, ◌+◌, ◌≤◌, ◌<◌, ◌^◌, length, None, Ok, IfOk, MatchResult};
ghost use Rattle.tl_text.specs.declared.logical_lines.TheConstants.{MOST_BYTES};
ghost use Rattle.netlist.specs.LibraryValue.{LibraryValue};
ghost use Rattle.blif_read.specs.Denotes.{Denotes};
ghost use Rattle.netlist.specs.HasCleanNames.{HasCleanNames};
ghost use Rattle.blif_read.specs.ReadFault.{HasOneReading, blif_err, read_fault};
ghost use Rattle.blif_read.specs.Refusals.{refusal_of};
ghost use Rattle.tl_fault.specs.OrMemory.{OrMemory};
ghost use Rattle.blif_read.specs.Reading.{fault_of, text_read};
ghost use Rattle.netlist.specs.ShortPorts.{HasShortPorts};
ghost use Rattle.blif_read.specs.Size.{library_size};
ghost use Rattle.netlist.specs.WellFormed.{IsWellFormed};

use crate::blif_err::BlifErr;
use crate::reader::read_lines;
use netlist::Library;
use std::alloc::Global;
use tl_text::{TextErr, lines};

// A refusal of a text's lines as one of the text.
fn lines_err(error: TextErr) -> BlifErr
    ensures { result ≡ blif_err error }
{
    match error {
        TextErr::BadByte(line) => BlifErr::BadByte(line),
        TextErr::TrailingSlash(line) => BlifErr::TrailingSlash(line),
        TextErr::Memory => BlifErr::Memory,
    }
}

// The library of a text, in one pass.
fn read_once(alloc: Global, text: &[u8]) -> Result<Library, BlifErr>
    requires { length text.now ≤ MOST_BYTES }
    ensures { MatchResult result (λ library. text_read text.now ≡ Ok library) (OrMemory refusal_of (λ e. fault_of (text_read text.now) ≡ Some e)) }
{
    match lines(alloc, text) {
        Ok(lines) => read_lines(alloc, text, lines),
        Err(error) => Err(lines_err(error)),
    }
}

/// The library that a text denotes. Its first model is the main model. The time is linear in the text, on average over the
/// hashes of the names.
///
/// # Errors
/// The first refusal of the text, by the table in `specs/ReadFault.antt`: T1 or T2 of a physical line, else B1 to B11 of the
/// first logical line that has one, else B12. `Memory` if memory ran out.
pub fn read(alloc: Global, text: &[u8]) -> Result<Library, BlifErr>
    requires { length text.now ≤ MOST_BYTES }

    // The text denotes the library, and a library that the text denotes is returned unless memory runs out.
    ensures denoted { IfOk result (λ library. Denotes text.now library) }
    ensures complete { (library : LibraryValue) → Denotes text.now library
        → MatchResult result (λ answer. answer ≡ library) (λ e. e ≡ BlifErr.Memory) }

    // A refusal is the text's first one, and a text that has one gives no library.
    ensures fault { MatchResult result (λ _. read_fault text.now ≡ None) (OrMemory refusal_of (λ e. read_fault text.now ≡ Some e)) }

    // Whatever the answer: a text has a library or a refusal, never both, and one library at most.
    ensures one_reading { HasOneReading text.now }

    // What the library keeps: its form, clean names, a size within the text's, and so few models and short names of ports.
    ensures well_formed { IfOk result IsWellFormed }
    ensures clean { IfOk result HasCleanNames }
    ensures small { IfOk result (λ library. library_size library ≤ length text.now + 1) }
    ensures few { IfOk result (λ library. length library.models < 2 ^ 32) }
    ensures short { IfOk result HasShortPorts }

    // Each library that the text denotes keeps the same, whatever the answer.
    ensures always_well_formed { (library : LibraryValue) → Denotes text.now library → IsWellFormed library }
    ensures always_clean { (library : LibraryValue) → Denotes text.now library → HasCleanNames library }
    ensures always_small { (library : LibraryValue) → Denotes text.now library → library_size library ≤ length text.now + 1 }
    ensures always_few { (library : LibraryValue) → Denotes text.now library → length library.models < 2 ^ 32 }
    ensures always_short { (library : LibraryValue) → Denotes text.now library → HasShortPorts library }
{
    read_once(alloc, text)
}
