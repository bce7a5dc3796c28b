//! The command `repack`.
ghost use Rattle.std.specs.Prelude.{◌≡◌};
ghost use Rattle.cmd_base.specs.Walk.{PortlessEnds, HasLaws};
ghost use Rattle.cmd_pack.specs.Repack.{repack_seen, repack_walk, WritesPack};

use crate::repack::words::RepackWords;
use cmd_base::Outcome;
use cmd_stations::{bit_count, read_pack, write_pack};
use ppc_pack::Pack;
use run_text::{LineBuf, put_bits_header};
use std::alloc::Global;
use tl_io::{Failed, Shelf, Sink};

// Writes the file of a pack, and then the line.
fn write_all<S: Shelf, O: Sink>(
    pack: &Pack,
    name: &str,
    buf: &mut LineBuf,
    shelf: &mut S,
    out: &mut O,
) -> Result<(), Failed>
    ensures ends { WritesPack pack.now name.now (S.seen shelf.old) (S.seen shelf.new) (O.seen out.old) (O.seen out.new) result }
    ensures given { (S.seen shelf.new).given ≡ (S.seen shelf.old).given }
{
    write_pack(pack, name, shelf)?;
    put_bits_header(bit_count(pack), buf, out)
}

/// Runs the command: writes the file of a pack in version 2, and prints the number of its configuration bits.
pub fn repack_job<S: Shelf, O: Sink>(
    alloc: Global,
    words: &RepackWords,
    shelf: &mut S,
    out: &mut O,
) -> Outcome
    ensures ends { PortlessEnds (repack_walk (repack_seen words.now)) (S.seen shelf.old) (S.seen shelf.new) (O.seen out.old) (O.seen out.new) result }
    ensures laws { HasLaws (repack_walk (repack_seen words.now)) }
{
    let pack = match read_pack(alloc, words.old, shelf) {
        Ok(pack) => pack,
        Err(outcome) => return outcome,
    };
    let mut buf = match LineBuf::make(alloc) {
        Ok(buf) => buf,
        Err(_) => {
            drop(pack);
            return Outcome::Memory;
        }
    };
    let written = write_all(&pack, words.new, &mut buf, shelf, out);
    drop(pack);
    Outcome::of_writing(written)
}
