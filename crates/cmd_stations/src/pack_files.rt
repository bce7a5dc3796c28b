//! Writing the file of a pack.
ghost use Rattle.std.specs.Prelude.{◌≡◌};
ghost use Rattle.tl_io.specs.Causes.{HasCause};
ghost use Rattle.cmd_stations.specs.FileWrites.{WritesFile};
ghost use Rattle.cmd_stations.specs.Packs.{present_bytes};

use ppc_file::encode;
use ppc_pack::Pack;
use tl_io::{Failed, FileSink, Shelf};

/// Writes the file of a pack, in version 2.
///
/// # Errors
/// `Failed` only if the count of write faults rose. The file then is unchanged or empty, or has a prefix of its bytes that is
/// not all of them.
pub fn write_pack<S: Shelf>(pack: &Pack, name: &str, shelf: &mut S) -> Result<(), Failed>
    ensures cause { HasCause (S.seen shelf.old).write_faults (S.seen shelf.new).write_faults result }
    ensures written { WritesFile (record { name = name.now; bytes = present_bytes pack.now }) (S.seen shelf.old).files (S.seen shelf.new).files result }
    ensures given { (S.seen shelf.new).given ≡ (S.seen shelf.old).given }
{
    shelf.begin_write(name)?;
    let mut file = FileSink::over(shelf);
    encode(pack, &mut file)
}
