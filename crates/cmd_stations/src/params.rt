//! Reading a source circuit: the netlist and the parameters.
ghost use Rattle.std.specs.Prelude.{◌≡◌, ◌≤◌, false, length, IfOk, IfErr, OnOk};
ghost use Rattle.tl_text.specs.declared.logical_lines.TheConstants.{MOST_BYTES};
ghost use Rattle.tl_io.specs.Shelf.{Files};
ghost use Rattle.param_list.specs.Parameters.{AreParameters};
ghost use Rattle.param_list.specs.ParamsText.{IsParamsText, HasOneReading};
ghost use Rattle.cmd_base.specs.Walk.{Told, Explains, KeepsFiles};
ghost use Rattle.cmd_stations.specs.Stops.{Stops};
ghost use Rattle.cmd_stations.specs.Source.{source_seen, HasNetlist, HasParams, IsNetlistSettled, AreParamsSettled, source_reading};
ghost use Rattle.cmd_stations.specs.Texts.{IsParamsRefusal};
ghost use Rattle.cmd_stations.specs.Tables.{IsReadNetlist, IsReadSource, ComesFrom, ComesWith};
ghost use Rattle.cmd_stations.specs.Mapped.{Aim};

use crate::files::read_file;
use crate::netlist_text::{Netlist, read_netlist};
use crate::source::Source;
use crate::stop::Stop;
use crate::words::SourceWords;
use cmd_base::{File, Outcome};
use run_text::{Params, read_params};
use std::alloc::Global;
use tl_io::Shelf;

// Reads the netlist file.
fn read_netlist_file<S: Shelf>(
    alloc: Global,
    words: &SourceWords,
    shelf: &mut S,
) -> Result<Netlist, Outcome>
    ensures read { IfOk result IsReadNetlist }
    ensures netlist { IfOk result (λ n. Told (S.seen shelf.old).files (λ files. HasNetlist files (source_seen words.now) n)) }
    ensures settled { OnOk result (Told (S.seen shelf.old).files (λ files. IsNetlistSettled files (source_seen words.now))) }
    ensures given { OnOk result ((S.seen shelf.new).given ≤ MOST_BYTES) }
    ensures err { IfErr result (λ o. (aim : Aim) → Explains (source_reading aim (source_seen words.now)) (S.seen shelf.old) (S.seen shelf.new) o) }
    ensures keeps { KeepsFiles (S.seen shelf.old) (S.seen shelf.new) }
    ensures not_writing { (S.seen shelf.new).is_writing ≡ false }
{
    let text = match read_file(alloc, words.netlist, File::Netlist, shelf) {
        Ok(text) => text,
        Err(outcome) => return Err(outcome),
    };
    match read_netlist(alloc, text) {
        Ok(netlist) => Ok(netlist),
        Err(stop) => Err(stop.at(File::Netlist)),
    }
}

/// The parameters that a text lists, for a netlist.
///
/// # Errors
/// `Refused` with the refusal of the text; `Memory` if memory runs out.
pub fn list_params(alloc: Global, text: &[u8], netlist: &Netlist) -> Result<Params, Stop>
    requires short { length text.now ≤ MOST_BYTES }
    requires read { IsReadNetlist netlist.now }
    ensures params { IfOk result (λ params. IsParamsText netlist.now.flat text.now params.list) }
    ensures are { IfOk result (λ params. AreParameters netlist.now.flat params.list) }
    ensures err { IfErr result (Stops (IsParamsRefusal netlist.now.flat text.now)) }
    ensures one { HasOneReading netlist.now.flat text.now }
{
    let params = read_params(alloc, text, &netlist.flat)?;
    Ok(params)
}

// Reads the parameter file of a netlist.
fn read_params_file<S: Shelf>(
    alloc: Global,
    words: &SourceWords,
    netlist: &Netlist,
    shelf: &mut S,
) -> Result<Params, Outcome>
    requires read { IsReadNetlist netlist.now }
    requires comes { Told (S.seen shelf.old).files (λ files. ComesFrom files (source_seen words.now) netlist.now) }
    ensures params { IfOk result (λ params. Told (S.seen shelf.old).files (λ files. HasParams files (source_seen words.now) netlist.now.flat params.list)) }
    ensures are { IfOk result (λ params. AreParameters netlist.now.flat params.list) }
    ensures settled { OnOk result (Told (S.seen shelf.old).files (λ files. AreParamsSettled files (source_seen words.now) netlist.now)) }
    ensures given { OnOk result ((S.seen shelf.new).given ≤ MOST_BYTES) }
    ensures err { IfErr result (λ o. (aim : Aim) → Explains (source_reading aim (source_seen words.now)) (S.seen shelf.old) (S.seen shelf.new) o) }
    ensures keeps { KeepsFiles (S.seen shelf.old) (S.seen shelf.new) }
    ensures not_writing { (S.seen shelf.new).is_writing ≡ false }
{
    let text = match read_file(alloc, words.params, File::Params, shelf) {
        Ok(text) => text,
        Err(outcome) => return Err(outcome),
    };
    match list_params(alloc, &text, netlist) {
        Ok(params) => Ok(params),
        Err(stop) => Err(stop.at(File::Params)),
    }
}

/// Reads a source circuit: the netlist, then its parameters.
///
/// # Errors
/// The outcome of the command, which ends here.
#[tactic(auto, using(cmd_base::proofs::EndLemmas::keeps_past))]
pub fn read_source<S: Shelf>(
    alloc: Global,
    words: &SourceWords,
    shelf: &mut S,
) -> Result<Source, Outcome>
    ensures read { IfOk result IsReadSource }
    ensures source { IfOk result (λ source. Told (S.seen shelf.old).files (λ files. ComesWith files (source_seen words.now) source)) }
    ensures given { OnOk result ((S.seen shelf.new).given ≤ MOST_BYTES) }
    ensures err { IfErr result (λ o. (aim : Aim) → Explains (source_reading aim (source_seen words.now)) (S.seen shelf.old) (S.seen shelf.new) o) }
    ensures keeps { KeepsFiles (S.seen shelf.old) (S.seen shelf.new) }
    ensures not_writing { (S.seen shelf.new).is_writing ≡ false }
{
    let netlist = match read_netlist_file(alloc, words, shelf) {
        Ok(netlist) => netlist,
        Err(outcome) => return Err(outcome),
    };
    match read_params_file(alloc, words, &netlist, shelf) {
        Ok(params) => Ok(Source { netlist, params }),
        Err(outcome) => {
            drop(netlist);
            Err(outcome)
        }
    }
}
