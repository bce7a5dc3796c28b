//! Writing pack files.
ghost use Rattle.tl_io.specs.Sink.{IsPut};
ghost use Rattle.tl_piece.specs.Added.{IsAdded};
ghost use Rattle.ppc_file.specs.Bytes.{bytes_of};
ghost use Rattle.ppc_file.specs.PackFile.{IsPackFile};

use crate::add_parts::{add_bits, add_head, add_nodes, add_params};
use crate::version::Version;
use ppc_pack::Pack;
use tl_io::{Failed, Sink};
use tl_piece::{WriteBuffer, Writer};

// Writes the file of a pack in the given version.
fn add_pack<O: Sink>(version: Version, pack: &Pack, writer: &mut Writer<'_, O>)
    ensures added { IsAdded O.seen writer.old (bytes_of version pack.now) writer.new }
    ensures file { IsPackFile (bytes_of version pack.now) pack.now }
{
    let graph = pack.graph();
    // The contract of this call says that the graph's pairs are normal, as those of a file are.
    let _count = graph.len();
    add_head(version, writer);
    add_params(version, pack.params(), writer);
    add_nodes(version, graph, writer);
    add_bits(version, pack.bits(), writer);
}

// Writes the file of a pack in the given version to a sink.
fn put_pack<O: Sink>(version: Version, pack: &Pack, out: &mut O) -> Result<(), Failed>
    ensures put { IsPut (O.seen out.old) (bytes_of version pack.now) (O.seen out.new) result }
    ensures file { IsPackFile (bytes_of version pack.now) pack.now }
{
    let mut piece = WriteBuffer::new();
    let mut writer = Writer::over(out, &mut piece);
    add_pack(version, pack, &mut writer);
    writer.finish()
}

/// Writes the file of a pack in version 2, in pieces of 4,096 bytes (the last may be shorter). Allocates no memory; time is
/// linear in the bytes.
///
/// # Errors
/// `Failed` only if the sink's count of faults rose. A prefix of the file is then written.
pub fn encode<O: Sink>(pack: &Pack, out: &mut O) -> Result<(), Failed>
    ensures put { IsPut (O.seen out.old) (bytes_of Version.Two pack.now) (O.seen out.new) result }

    // These bytes are the file of this pack, whatever the call returns.
    ensures file { IsPackFile (bytes_of Version.Two pack.now) pack.now }
{
    put_pack(Version::Two, pack, out)
}

/// Writes the file of a pack in version 1, in pieces of 4,096 bytes (the last may be shorter). Allocates no memory; time is
/// linear in the bytes.
///
/// # Errors
/// `Failed` only if the sink's count of faults rose. A prefix of the file is then written.
pub fn encode_one<O: Sink>(pack: &Pack, out: &mut O) -> Result<(), Failed>
    ensures put { IsPut (O.seen out.old) (bytes_of Version.One pack.now) (O.seen out.new) result }

    // These bytes are the file of this pack, whatever the call returns.
    ensures file { IsPackFile (bytes_of Version.One pack.now) pack.now }
{
    put_pack(Version::One, pack, out)
}
