//! The command `graph`.
ghost use Rattle.std.specs.Prelude.{◌≡◌, ◌≤◌, false, IfOk, IfErr, OnOk};
ghost use Rattle.tl_text.specs.declared.logical_lines.TheConstants.{MOST_BYTES};
ghost use Rattle.cmd_base.specs.Walk.{KeepsFiles, PortlessEnds, Explains, Told, HasLaws};
ghost use Rattle.cmd_stations.specs.Mapped.{ToGraph};
ghost use Rattle.cmd_stations.specs.Source.{source_reading};
ghost use Rattle.cmd_stations.specs.Tables.{ComesToGraph};
ghost use Rattle.cmd_graph.specs.Graph.{graph_seen, graph_walk};
ghost use Rattle.cmd_graph.specs.Exports.{IsExport, WritesExport};

use crate::export::{Export, make_export, write_export};
use crate::words::GraphWords;
use cmd_base::Outcome;
use cmd_stations::read_graph;
use std::alloc::Global;
use tl_io::{Failed, Shelf, Sink};

// Reads a source circuit, and prepares its graph for writing.
fn read_export<S: Shelf>(
    alloc: Global,
    words: &GraphWords,
    shelf: &mut S,
) -> Result<Export, Outcome>
    ensures export { IfOk result IsExport }
    ensures comes { IfOk result (λ e. Told (S.seen shelf.old).files (λ files. ComesToGraph files (graph_seen words.now).source e.built)) }
    ensures given { OnOk result ((S.seen shelf.new).given ≤ MOST_BYTES) }
    ensures err { IfErr result (Explains (source_reading ToGraph (graph_seen words.now).source) (S.seen shelf.old) (S.seen shelf.new)) }
    ensures keeps { KeepsFiles (S.seen shelf.old) (S.seen shelf.new) }
    ensures not_writing { (S.seen shelf.new).is_writing ≡ false }
{
    let built = match read_graph(alloc, &words.source, shelf) {
        Ok(built) => built,
        Err(outcome) => return Err(outcome),
    };
    match make_export(alloc, built) {
        Ok(export) => Ok(export),
        Err(_) => Err(Outcome::Memory),
    }
}

// Writes the file, and then the line.
fn write_out<S: Shelf, O: Sink>(
    export: &Export,
    name: &str,
    shelf: &mut S,
    out: &mut O,
) -> Result<(), Failed>
    requires { IsExport export.now }
    ensures ends { WritesExport name.now export.now (S.seen shelf.old) (S.seen shelf.new) (O.seen out.old) (O.seen out.new) result }
    ensures given { (S.seen shelf.new).given ≡ (S.seen shelf.old).given }
{
    match write_export(export, name, shelf) {
        Ok(()) => out.put(export.line.as_bytes()),
        Err(failed) => Err(failed),
    }
}

/// Runs the command: builds the graph of a source circuit, and writes it.
pub fn graph_job<S: Shelf, O: Sink>(
    alloc: Global,
    words: &GraphWords,
    shelf: &mut S,
    out: &mut O,
) -> Outcome
    ensures ends { PortlessEnds (graph_walk (graph_seen words.now)) (S.seen shelf.old) (S.seen shelf.new) (O.seen out.old) (O.seen out.new) result }
    ensures laws { HasLaws (graph_walk (graph_seen words.now)) }
{
    let export = match read_export(alloc, words, shelf) {
        Ok(export) => export,
        Err(outcome) => return outcome,
    };
    let written = write_out(&export, words.out, shelf, out);
    drop(export);
    Outcome::of_writing(written)
}
