//! Preparing and writing the graph of a source circuit.
ghost use Rattle.std.specs.Prelude.{◌≡◌, IfOk, string_bytes};
ghost use Rattle.param_list.specs.RegularPlaces.{AreRegularPlaces};
ghost use Rattle.tl_io.specs.Causes.{HasCause};
ghost use Rattle.cmd_stations.specs.Tables.{IsBuiltSource};
ghost use Rattle.cmd_stations.specs.FileWrites.{WritesFile};
ghost use Rattle.cmd_graph.specs.Graph.{graph_line, IsExported};
ghost use Rattle.cmd_graph.specs.Exports.{export_circuit, CanBeWritten, IsExport, export_text};

use aiger_io::{graph_law, put_aag};
use cmd_stations::BuiltSource;
use param_list::regular;
use std::alloc::{AllocError, Global};
use tl_io::{Failed, FileSink, Shelf};

/// A source circuit with its graph, the places of its regular inputs, and the line with the graph's counts.
#[derive(Drop)]
pub struct Export {
    pub built: BuiltSource,
    pub regular: Vec<u32>,
    pub line: String,
}

// The places of the regular inputs, which writing the graph requires.
fn regular_places(alloc: Global, built: &BuiltSource) -> Result<Vec<u32>, AllocError>
    requires { IsBuiltSource built.now }
    ensures places { IfOk result (λ places. AreRegularPlaces built.now.source.netlist.flat built.now.source.params.list places.items) }
    ensures written { IfOk result (λ places. CanBeWritten built.now places.items) }
{
    let places = regular(alloc, &built.source.netlist.flat, &built.source.params)?;
    Ok(places)
}

// The line with the graph's counts.
fn counts_line(alloc: Global, built: &BuiltSource, regular: &[u32]) -> Result<String, AllocError>
    requires { CanBeWritten built.now regular.now }
    ensures { IfOk result (λ line. string_bytes line ≡ graph_line (export_circuit built.now regular.now).header) }
{
    let inputs = regular.len() + built.source.params.list.len();
    let latches = built.source.netlist.flat.latches.len();
    let ands = built.graph.len() - 1 - built.graph.sources();
    format!(in alloc; "inputs {} latches {} ands {}\n", inputs, latches, ands)
}

// The law of the circuit that is written: it is that of the source circuit. The body is empty: the call is its contract.
fn export_law(built: &BuiltSource, regular: &[u32])
    requires built { IsBuiltSource built.now }
    requires written { CanBeWritten built.now regular.now }
    ensures { IsExported built.now.source (export_circuit built.now regular.now) }
{
    let source = &built.source;
    graph_law(
        &source.netlist.flat,
        &source.params,
        regular,
        &built.graph,
        &built.roots,
    );
}

/// Prepares the graph of a source circuit for writing. `Err` only if memory runs out.
pub fn make_export(alloc: Global, built: BuiltSource) -> Result<Export, AllocError>
    requires { IsBuiltSource built }
    ensures built { IfOk result (λ e. e.built ≡ built) }
    ensures export { IfOk result IsExport }
{
    let regular = match regular_places(alloc, &built) {
        Ok(places) => places,
        Err(error) => {
            drop(built);
            return Err(error);
        }
    };
    match counts_line(alloc, &built, &regular) {
        Ok(line) => {
            export_law(&built, &regular);
            Ok(Export {
                built,
                regular,
                line,
            })
        }
        Err(error) => {
            drop(built);
            Err(error)
        }
    }
}

/// Writes the file of a graph.
///
/// # Errors
/// `Failed` only if the count of write faults rose. The file then is unchanged or empty, or has a prefix of its bytes that is
/// not all of them.
pub fn write_export<S: Shelf>(export: &Export, name: &str, shelf: &mut S) -> Result<(), Failed>
    requires { IsExport export.now }
    ensures cause { HasCause (S.seen shelf.old).write_faults (S.seen shelf.new).write_faults result }
    ensures written { WritesFile (export_text name.now export.now) (S.seen shelf.old).files (S.seen shelf.new).files result }
    ensures given { (S.seen shelf.new).given ≡ (S.seen shelf.old).given }
{
    let source = &export.built.source;
    shelf.begin_write(name)?;
    let mut file = FileSink::over(shelf);
    put_aag(
        &source.netlist.flat,
        &source.params,
        &export.regular,
        &export.built.graph,
        &export.built.roots,
        &mut file,
    )
}
