//! Reading pack files.
ghost use Rattle.std.specs.Prelude.{◌≡◌, ◌≤◌, length, IfOk, IfErr};
ghost use Rattle.tl_fault.specs.OrMemory.{OrMemory};
ghost use Rattle.ppc_pack.specs.declared.pack.TheConstants.{MOST_PACK_BYTES, MOST_PACK_NODES};
ghost use Rattle.ppc_file.specs.Fronts.{versioned};
ghost use Rattle.ppc_file.specs.PackFile.{IsPackFile, IsPackFault, HasOneReading};
ghost use Rattle.ppc_file.specs.Reading.{StandsAt};
ghost use Rattle.ppc_file.specs.Refusals.{refusal_of};

use crate::field::{magic, version};
use crate::number::offset;
use crate::pack_err::PackErr;
use crate::read_bits::read_bits;
use crate::read_nodes::read_nodes;
use crate::read_params::read_params;
use crate::version::Version;
use ppc_pack::Pack;
use std::alloc::Global;
use tl_text::TextKey;

// The version of a file, and the bytes after it.
fn read_head(file: &[u8]) -> Result<(Version, &[u8]), PackErr>
    requires { length file.now ≤ MOST_PACK_BYTES }
    ensures stands { IfOk result (λ x. StandsAt file.now (versioned x.0) x.1.now) }
    ensures fault { IfErr result (OrMemory refusal_of (IsPackFault file.now)) }
{
    let total = file.len() as u32;
    let (_letters, rest) = magic(total, file)?;
    let (version, rest) = version(total, rest)?;
    Ok((version, rest))
}

// The pack of a whole file.
fn read_whole(alloc: Global, bytes: &[u8]) -> Result<Pack, PackErr>
    requires { length bytes.now ≤ MOST_PACK_BYTES }
    ensures ok { IfOk result (λ pack. IsPackFile bytes.now pack) }
    ensures room { IfOk result (λ pack. pack.graph.max ≡ MOST_PACK_NODES) }
    ensures fault { IfErr result (OrMemory refusal_of (IsPackFault bytes.now)) }
{
    let (version, rest) = read_head(bytes)?;
    let key = TextKey::of(bytes);
    let (params, rest) = read_params(alloc, key, version, bytes, rest)?;
    let (graph, rest) = read_nodes(alloc, key, version, &params, bytes, rest)?;
    let (bits, rest) = read_bits(alloc, version, &params, &graph, bytes, rest)?;
    if !rest.is_empty() {
        return Err(PackErr::Trailing(offset(bytes.len() as u32, rest)));
    }
    Ok(Pack::make(params, graph, bits))
}

/// Reads the pack from its file, of version 1 or 2.
///
/// Time and memory are linear in the bytes, on average over the hashes. The counts in the file reserve no memory: vectors
/// grow with what has been read.
///
/// # Errors
/// The first refusal of the file, by `specs/PackFile.antt`: K1 to K8, each with the offset of the refused field. A truncated
/// field is refused as truncated before anything else about it is checked. `Memory` if memory runs out. Bytes are the file of
/// one pack or have one refusal, and not both.
pub fn decode(alloc: Global, bytes: &[u8]) -> Result<Pack, PackErr>
    requires { length bytes.now ≤ MOST_PACK_BYTES }
    ensures ok { IfOk result (λ pack. IsPackFile bytes.now pack) }
    ensures room { IfOk result (λ pack. pack.graph.max ≡ MOST_PACK_NODES) }
    ensures fault { IfErr result (OrMemory refusal_of (IsPackFault bytes.now)) }
    ensures one_reading { HasOneReading bytes.now }
{
    read_whole(alloc, bytes)
}
