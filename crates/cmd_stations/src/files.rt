//! Reading the files of a command.
ghost use Rattle.std.specs.Prelude.{◌≡◌, ◌≤◌, false, length, IfOk, IfErr, OnOk};
ghost use Rattle.tl_io.specs.Shelf.{Files};
ghost use Rattle.cmd_base.specs.Walk.{Told, KeepsFiles};
ghost use Rattle.cmd_base.specs.Refusals.{most_bytes};
ghost use Rattle.cmd_stations.specs.Texts.{HasBytes};
ghost use Rattle.cmd_stations.specs.Stops.{IsUnread};

use cmd_base::{File, Outcome};
use ppc_pack::MOST_PACK_BYTES;
use std::alloc::Global;
use tl_io::{Shelf, Slurp, slurp};
use tl_text::MOST_BYTES;

// The maximal size of a text and of a pack, in bytes.
const MOST_TEXT: u64 = MOST_BYTES as u64;

const MOST_PACK: u64 = MOST_PACK_BYTES as u64;

// The maximal size of a file, in bytes.
fn limit(file: File) -> u64
    ensures { result ≡ most_bytes file }
{
    match file {
        File::Netlist => MOST_TEXT,
        File::Params => MOST_TEXT,
        File::Script => MOST_TEXT,
        File::Pack => MOST_PACK,
        File::Cert => MOST_TEXT,
    }
}

/// Reads the file with this name.
///
/// # Errors
/// The file is too long or can't be read, or memory runs out.
pub fn read_file<S: Shelf>(
    alloc: Global,
    name: &str,
    file: File,
    shelf: &mut S,
) -> Result<Vec<u8>, Outcome>
    ensures text { IfOk result (λ text. Told (S.seen shelf.old).files (λ files. HasBytes (most_bytes file) files name.now text.items)) }
    ensures short { IfOk result (λ text. length text.items ≤ most_bytes file) }
    ensures given { OnOk result ((S.seen shelf.new).given ≤ most_bytes file) }
    ensures err { IfErr result (IsUnread name.now file (S.seen shelf.old) (S.seen shelf.new)) }
    ensures keeps { KeepsFiles (S.seen shelf.old) (S.seen shelf.new) }
    ensures not_writing { (S.seen shelf.new).is_writing ≡ false }
{
    match slurp(alloc, shelf, name, limit(file)) {
        Ok(text) => Ok(text),
        Err(Slurp::ReadFault) => Err(Outcome::ReadFault(file)),
        Err(Slurp::TooLong) => Err(Outcome::TooLong(file)),
        Err(Slurp::Memory) => Err(Outcome::Memory),
    }
}
