//! Reading a pack, and what its scripts may name.
ghost use Rattle.std.specs.Prelude.{◌≡◌, ◌≤◌, false, length, map, IfOk, IfErr, OnOk};
ghost use Rattle.ppc_pack.specs.Pack.{IsPack};
ghost use Rattle.ppc_pack.specs.declared.pack.PackParam.{PackParam as PackParamValue};
ghost use Rattle.ppc_file.specs.PackFile.{IsPackFile, HasOneReading};
ghost use Rattle.cmd_base.specs.Walk.{Told, Explains, KeepsFiles};
ghost use Rattle.cmd_base.specs.Refusals.{most_bytes};
ghost use Rattle.cmd_stations.specs.Stops.{Stops};
ghost use Rattle.cmd_stations.specs.Packs.{HasPack, IsPackRefusal, IsPackSettled, pack_reading, names_on};

use crate::files::read_file;
use crate::stop::Stop;
use cmd_base::{File, Outcome};
use ppc_file::decode;
use ppc_pack::{Pack, PackParam};
use run_text::{Forms, ScriptNames};
use std::alloc::{AllocError, Global};
use tl_io::Shelf;
use tl_text::Name;

// The pack with this file.
fn decode_pack(alloc: Global, bytes: &[u8]) -> Result<Pack, Stop>
    requires { length bytes.now ≤ most_bytes File.Pack }
    ensures pack { IfOk result (λ pack. IsPackFile bytes.now pack) }
    ensures err { IfErr result (Stops (IsPackRefusal bytes.now)) }
    ensures one { HasOneReading bytes.now }
{
    let pack = decode(alloc, bytes)?;
    Ok(pack)
}

/// Reads a pack from its file.
///
/// # Errors
/// The outcome of the command, which ends here.
pub fn read_pack<S: Shelf>(alloc: Global, name: &str, shelf: &mut S) -> Result<Pack, Outcome>
    ensures pack { IfOk result (λ pack. Told (S.seen shelf.old).files (λ files. HasPack files name.now pack)) }
    ensures settled { OnOk result (Told (S.seen shelf.old).files (λ files. IsPackSettled files name.now)) }
    ensures given { OnOk result ((S.seen shelf.new).given ≤ most_bytes File.Pack) }
    ensures err { IfErr result (Explains (pack_reading name.now) (S.seen shelf.old) (S.seen shelf.new)) }
    ensures keeps { KeepsFiles (S.seen shelf.old) (S.seen shelf.new) }
    ensures not_writing { (S.seen shelf.new).is_writing ≡ false }
{
    let bytes = match read_file(alloc, name, File::Pack, shelf) {
        Ok(bytes) => bytes,
        Err(outcome) => return Err(outcome),
    };
    match decode_pack(alloc, &bytes) {
        Ok(pack) => Ok(pack),
        Err(stop) => Err(stop.at(File::Pack)),
    }
}

/// The number of configuration bits of a pack.
pub fn bit_count(pack: &Pack) -> u32
    ensures { result ≡ length pack.now.bits }
{
    pack.bits().len() as u32
}

// The names of parameters, in their order.
fn names_of_params(alloc: Global, params: &[PackParam]) -> Result<Vec<Name>, AllocError>
    ensures { IfOk result (λ names. names.items ≡ map (λ (p : PackParamValue). p.name) params.now) }
{
    let mut names = Vec::with_capacity(alloc, params.len())?;
    for param in params {
        names.push(Name::make(alloc, param.name.bytes())?)?;
    }
    Ok(names)
}

/// What a script that is played on a pack may name. It may have cycles if its circuit is given by the number of its regular
/// inputs.
///
/// `Err` only if memory runs out.
pub fn script_names(
    alloc: Global,
    forms: Forms,
    pack: &Pack,
    width: Option<u32>,
) -> Result<ScriptNames, AllocError>
    ensures names { IfOk result (λ names. names ≡ names_on forms pack.now width) }
    ensures kept { IsPack pack.now.params pack.now.graph pack.now.bits }
{
    let params = names_of_params(alloc, pack.params())?;
    let bits = bit_count(pack);
    Ok(ScriptNames {
        forms,
        params,
        width,
        bits,
    })
}
