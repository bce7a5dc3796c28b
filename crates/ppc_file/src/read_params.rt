//! The parameters of a pack file.
ghost use Rattle.std.specs.Prelude.{◌≡◌, ◌≤◌, ◌∷◌, [], ◌++◌, length, IfOk, IfErr, OnOk, None};
ghost use Rattle.tl_fault.specs.OrMemory.{OrMemory};
ghost use Rattle.ppc_pack.specs.declared.pack.TheConstants.{MOST_PACK_BYTES};
ghost use Rattle.tl_text.specs.NameIndex.{place_of};
ghost use Rattle.ppc_file.specs.Fronts.{versioned, in_params};
ghost use Rattle.ppc_file.specs.PackFile.{IsPackFault};
ghost use Rattle.ppc_file.specs.Reading.{StandsAt};
ghost use Rattle.ppc_file.specs.Refusals.{refusal_of};

use crate::field::{param, param_count};
use crate::pack_err::PackErr;
use crate::version::Version;
use ppc_pack::PackParam;
use std::alloc::{AllocError, Global};
use tl_text::{Name, NameIndex, TextKey};

// Appends a parameter whose name is new.
fn push_param(
    alloc: Global,
    names: &mut NameIndex,
    params: &mut Vec<PackParam>,
    name: &[u8],
    init: bool,
) -> Result<(), AllocError>
    requires { place_of names.old name.now ≡ None }
    ensures names { OnOk result (names.new ≡ names.old ++ name.now ∷ []) }
    ensures params { OnOk result (params.new.items ≡ params.old.items ++ record { name = name.now; init = init } ∷ []) }
{
    names.add(alloc, name)?;
    let name = Name::make(alloc, name)?;
    params.push(PackParam { name, init })?;
    Ok(())
}

// As many parameters as the file states, and the bytes after them.
fn read_each<'a>(
    alloc: Global,
    key: TextKey,
    version: Version,
    count: u32,
    file: &[u8],
    rest: &'a [u8],
) -> Result<(Vec<PackParam>, &'a [u8]), PackErr>
    requires short { length file.now ≤ MOST_PACK_BYTES }
    requires stands { StandsAt file.now (in_params version count []) rest.now }
    ensures stands { IfOk result (λ x. StandsAt file.now (in_params version (length x.0.items) x.0.items) x.1.now) }
    ensures fault { IfErr result (OrMemory refusal_of (IsPackFault file.now)) }
{
    let total = file.len() as u32;
    let mut names = NameIndex::new(alloc, key);
    let mut params = Vec::new(alloc);
    let mut rest = rest;
    for _ in 0..count {
        let (found, behind) = param(version, total, &names, rest)?;
        push_param(alloc, &mut names, &mut params, found.name, found.init)?;
        rest = behind;
    }
    Ok((params, rest))
}

// The parameters of a file of this key, which follow its version, and the bytes after them. Time and memory are linear in their bytes, on
// average over the hashes.
pub(crate) fn read_params<'a>(
    alloc: Global,
    key: TextKey,
    version: Version,
    file: &[u8],
    rest: &'a [u8],
) -> Result<(Vec<PackParam>, &'a [u8]), PackErr>
    requires short { length file.now ≤ MOST_PACK_BYTES }
    requires stands { StandsAt file.now (versioned version) rest.now }
    ensures stands { IfOk result (λ x. StandsAt file.now (in_params version (length x.0.items) x.0.items) x.1.now) }
    ensures fault { IfErr result (OrMemory refusal_of (IsPackFault file.now)) }
{
    let (count, rest) = param_count(version, file.len() as u32, rest)?;
    read_each(alloc, key, version, count, file, rest)
}
