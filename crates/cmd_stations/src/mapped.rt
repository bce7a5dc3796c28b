//! Reading a source circuit and mapping it to LUTs.
ghost use Rattle.std.specs.Prelude.{◌≡◌, ◌≤◌, false, IfOk, IfErr, OnOk};
ghost use Rattle.tl_text.specs.declared.logical_lines.TheConstants.{MOST_BYTES};
ghost use Rattle.tl_io.specs.Shelf.{Files};
ghost use Rattle.cut_sets.specs.declared.limits.TheConstants.{MOST_LEAVES};
ghost use Rattle.cmd_base.specs.Walk.{Told, Explains, KeepsFiles};
ghost use Rattle.cmd_stations.specs.Source.{source_seen, source_reading};
ghost use Rattle.cmd_stations.specs.Mapped.{ToTables};
ghost use Rattle.cmd_stations.specs.Tables.{IsReadSource, AreTables, ComesPast};

use crate::mapping::map_source;
use crate::params::read_source;
use crate::source::Source;
use crate::tables::SourceTables;
use crate::words::SourceWords;
use cmd_base::{File, Outcome};
use std::alloc::Global;
use tl_io::Shelf;

/// A source circuit with its LUTs.
#[derive(Drop)]
pub struct MappedSource {
    pub source: Source,
    pub tables: SourceTables,
}

/// Reads a source circuit, and maps it.
///
/// # Errors
/// The outcome of the command, which ends here.
pub fn read_mapped<S: Shelf>(
    alloc: Global,
    words: &SourceWords,
    shelf: &mut S,
) -> Result<MappedSource, Outcome>
    requires least { 2 ≤ words.now.k }
    requires most { words.now.k ≤ MOST_LEAVES }
    ensures read { IfOk result (λ m. IsReadSource m.source) }
    ensures tables { IfOk result (λ m. AreTables words.now.rule m.source words.now.k m.tables) }
    ensures comes { IfOk result (λ m. Told (S.seen shelf.old).files (λ files. ComesPast files (source_seen words.now) m)) }
    ensures given { OnOk result ((S.seen shelf.new).given ≤ MOST_BYTES) }
    ensures err { IfErr result (Explains (source_reading ToTables (source_seen words.now)) (S.seen shelf.old) (S.seen shelf.new)) }
    ensures keeps { KeepsFiles (S.seen shelf.old) (S.seen shelf.new) }
    ensures not_writing { (S.seen shelf.new).is_writing ≡ false }
{
    let source = match read_source(alloc, words, shelf) {
        Ok(source) => source,
        Err(outcome) => return Err(outcome),
    };
    match map_source(alloc, words.rule, &source, words.k) {
        Ok(tables) => Ok(MappedSource { source, tables }),
        Err(stop) => {
            drop(source);
            Err(stop.at(File::Netlist))
        }
    }
}
