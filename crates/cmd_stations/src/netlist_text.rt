//! The netlist that a text denotes.
ghost use Rattle.std.specs.Prelude.{◌≡◌, ◌≤◌, length, IfOk, IfErr, MatchResult};
ghost use Rattle.tl_text.specs.declared.logical_lines.TheConstants.{MOST_BYTES};
ghost use Rattle.cmd_stations.specs.Texts.{IsNetlistText, NetlistRefusal};
ghost use Rattle.cmd_stations.specs.Tables.{IsReadNetlist};
ghost use Rattle.cmd_stations.specs.Source.{IsTextSettled};
ghost use Rattle.cmd_stations.specs.Stops.{Stops};

use crate::library_text::read_library;
use crate::stop::Stop;
use blif_flat::{Flat, flatten};
use netlist::Library;
use std::alloc::Global;

/// A netlist: the library that a text denotes, and its flat circuit.
#[derive(Drop)]
pub struct Netlist {
    pub library: Library,
    pub flat: Flat,
}

/// The netlist that a text denotes. The memory of the text is freed once the library is read.
///
/// # Errors
/// `Refused` with the first refusal of the text, otherwise with that of its library; `Memory` if memory runs out.
pub fn read_netlist(alloc: Global, text: Vec<u8>) -> Result<Netlist, Stop>
    requires { length text.items ≤ MOST_BYTES }
    ensures ok { IfOk result (λ n. IsNetlistText text.items n) }
    ensures read { IfOk result IsReadNetlist }
    ensures err { IfErr result (Stops (NetlistRefusal text.items)) }
    ensures settled { MatchResult result (λ _. IsTextSettled text.items) (Stops (λ _. IsTextSettled text.items)) }
{
    let library = read_library(alloc, text)?;
    let flat = flatten(alloc, &library)?;
    Ok(Netlist { library, flat })
}
