//! A mapped source circuit that is ready to be written.
ghost use Rattle.std.specs.Prelude.{◌≡◌, ◌≤◌, false, IfOk, IfErr, OnOk};
ghost use Rattle.tl_text.specs.declared.logical_lines.TheConstants.{MOST_BYTES};
ghost use Rattle.cut_sets.specs.declared.limits.TheConstants.{MOST_LEAVES};
ghost use Rattle.blif_write.specs.Writable.{CanBeNamed};
ghost use Rattle.cmd_base.specs.Walk.{Told, Explains, KeepsFiles};
ghost use Rattle.cmd_stations.specs.Source.{source_seen, source_reading};
ghost use Rattle.cmd_stations.specs.Tables.{IsReadSource, AreTables, ComesPast, IsDraft};
ghost use Rattle.cmd_stations.specs.Mapped.{ToTables};

use crate::mapped::{MappedSource, read_mapped};
use crate::source::Source;
use crate::words::SourceWords;
use cmd_base::Outcome;
use run_text::{LineBuf, regular};
use std::alloc::{AllocError, Global};
use tl_io::Shelf;

/// A mapped source circuit with everything that its files and its line need: the places of its regular inputs, and a buffer.
#[derive(Drop)]
pub struct WritableSource {
    pub mapped: MappedSource,
    pub regular: Vec<u32>,
    pub buf: LineBuf,
}

// The places of the regular inputs of a source circuit.
fn regular_places(alloc: Global, source: &Source) -> Result<Vec<u32>, AllocError>
    requires { IsReadSource source.now }
    ensures { IfOk result (λ places. CanBeNamed source.now.netlist.flat source.now.params.list places.items) }
{
    let places = regular(alloc, &source.netlist.flat, &source.params)?;
    Ok(places)
}

// The draft of a mapped source circuit.
fn make_draft(alloc: Global, mapped: MappedSource) -> Result<WritableSource, AllocError>
    requires { IsReadSource mapped.source }
    ensures mapped { IfOk result (λ d. d.mapped ≡ mapped) }
    ensures named { IfOk result (λ d. CanBeNamed mapped.source.netlist.flat mapped.source.params.list d.regular.items) }
{
    let regular = match regular_places(alloc, &mapped.source) {
        Ok(places) => places,
        Err(error) => {
            drop(mapped);
            return Err(error);
        }
    };
    match LineBuf::make(alloc) {
        Ok(buf) => Ok(WritableSource {
            mapped,
            regular,
            buf,
        }),
        Err(error) => {
            drop(mapped);
            Err(error)
        }
    }
}

/// Reads a source circuit, maps it, and prepares what its files and its line need.
///
/// # Errors
/// The outcome of the command, which ends here.
pub fn read_draft<S: Shelf>(
    alloc: Global,
    words: &SourceWords,
    shelf: &mut S,
) -> Result<WritableSource, Outcome>
    requires least { 2 ≤ words.now.k }
    requires most { words.now.k ≤ MOST_LEAVES }
    ensures draft { IfOk result IsDraft }
    ensures tables { IfOk result (λ d. AreTables words.now.rule d.mapped.source words.now.k d.mapped.tables) }
    ensures comes { IfOk result (λ d. Told (S.seen shelf.old).files (λ files. ComesPast files (source_seen words.now) d.mapped)) }
    ensures given { OnOk result ((S.seen shelf.new).given ≤ MOST_BYTES) }
    ensures err { IfErr result (Explains (source_reading ToTables (source_seen words.now)) (S.seen shelf.old) (S.seen shelf.new)) }
    ensures keeps { KeepsFiles (S.seen shelf.old) (S.seen shelf.new) }
    ensures not_writing { (S.seen shelf.new).is_writing ≡ false }
{
    let mapped = match read_mapped(alloc, words, shelf) {
        Ok(mapped) => mapped,
        Err(outcome) => return Err(outcome),
    };
    match make_draft(alloc, mapped) {
        Ok(draft) => Ok(draft),
        Err(_) => Err(Outcome::Memory),
    }
}
