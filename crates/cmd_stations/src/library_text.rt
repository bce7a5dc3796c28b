//! The library that the text of a netlist denotes.
ghost use Rattle.std.specs.Prelude.{◌≡◌, ◌≤◌, ◌<◌, ◌^◌, length, IfOk, IfErr};
ghost use Rattle.netlist.specs.HasCleanNames.{HasCleanNames};
ghost use Rattle.netlist.specs.ShortPorts.{HasShortPorts};
ghost use Rattle.netlist.specs.WellFormed.{IsWellFormed};
ghost use Rattle.tl_text.specs.declared.logical_lines.TheConstants.{MOST_BYTES};
ghost use Rattle.cmd_stations.specs.Texts.{is_aag, DenotesLibrary, LibraryRefusal, HasOneLibrary};
ghost use Rattle.cmd_stations.specs.Stops.{Stops};

use crate::stop::Stop;
use aiger_io::read_aag;
use blif_read::read;
use netlist::Library;
use std::alloc::Global;

// Whether a text begins like AIGER's ASCII format.
fn is_aag(text: &[u8]) -> bool
    ensures { result ≡ is_aag text.now }
{
    text.starts_with(b"aag ")
}

/// The library that the text of a netlist denotes. The format is AIGER's ASCII format if the text begins with `aag` and a
/// blank, and otherwise BLIF. The call frees the memory of the text.
///
/// # Errors
/// `Refused` with the first refusal of the text; `Memory` if memory runs out.
pub fn read_library(alloc: Global, text: Vec<u8>) -> Result<Library, Stop>
    requires { length text.items ≤ MOST_BYTES }
    ensures library { IfOk result (DenotesLibrary text.items) }
    ensures refusal { IfErr result (Stops (LibraryRefusal text.items)) }
    ensures one_library { HasOneLibrary text.items }
    ensures well_formed { IfOk result IsWellFormed }
    ensures clean { IfOk result HasCleanNames }
    ensures few { IfOk result (λ library. length library.models < 2 ^ 32) }
    ensures short { IfOk result HasShortPorts }
{
    let bytes = text.as_slice();
    if is_aag(bytes) {
        let library = read_aag(alloc, bytes)?;
        Ok(library)
    } else {
        let library = read(alloc, bytes)?;
        Ok(library)
    }
}
