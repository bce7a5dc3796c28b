//! Writing the two netlists of a source circuit.
ghost use Rattle.std.specs.Prelude.{◌≡◌};
ghost use Rattle.tl_io.specs.Causes.{HasCause};
ghost use Rattle.tl_io.specs.Sink.{IsPut};
ghost use Rattle.blif_write.specs.PlainNetlist.{netlist_text};
ghost use Rattle.cmd_stations.specs.Written.{specialised_of, template_of, specialised_text, RunsSpecialised, template_text, IsTunedSource};
ghost use Rattle.cmd_stations.specs.FileWrites.{WritesFile};
ghost use Rattle.cmd_stations.specs.Tables.{IsDraft};

use crate::drafts::WritableSource;
use blif_write::{specialised, template};
use tl_io::{Failed, FileSink, Shelf, Sink};

// Writes the netlist of the LUTs under a configuration.
fn put_specialised<O: Sink>(
    draft: &WritableSource,
    config: &[bool],
    out: &mut O,
) -> Result<(), Failed>
    requires { IsDraft draft.now }
    ensures { IsPut (O.seen out.old) (netlist_text (specialised_of draft.now.mapped.source draft.now.mapped.tables.template config.now)) (O.seen out.new) result }
{
    let mapped = &draft.mapped;
    specialised(
        &mapped.source.netlist.flat,
        &mapped.source.params,
        &draft.regular,
        &mapped.tables.template,
        config,
        out,
    )
}

// Writes the netlist of the LUTs with their bits as inputs.
fn put_template<O: Sink>(draft: &WritableSource, out: &mut O) -> Result<(), Failed>
    requires { IsDraft draft.now }
    ensures { IsPut (O.seen out.old) (netlist_text (template_of draft.now.mapped.source draft.now.mapped.tables.template)) (O.seen out.new) result }
{
    let mapped = &draft.mapped;
    template(
        &mapped.source.netlist.flat,
        &mapped.source.params,
        &draft.regular,
        &mapped.tables.template,
        out,
    )
}

/// Writes the file of the LUT netlist under a configuration.
///
/// If this is the configuration for values of the parameters, the netlist behaves like the source circuit for these values,
/// whatever the call returns.
///
/// # Errors
/// `Failed` only if the count of write faults rose. The file then is unchanged or empty, or has a prefix of its bytes that is
/// not all of them.
pub fn write_specialised<S: Shelf>(
    draft: &WritableSource,
    config: &[bool],
    name: &str,
    shelf: &mut S,
) -> Result<(), Failed>
    requires { IsDraft draft.now }
    ensures cause { HasCause (S.seen shelf.old).write_faults (S.seen shelf.new).write_faults result }
    ensures written { WritesFile (specialised_text draft.now.mapped config.now name.now) (S.seen shelf.old).files (S.seen shelf.new).files result }
    ensures given { (S.seen shelf.new).given ≡ (S.seen shelf.old).given }
    ensures means { RunsSpecialised draft.now.mapped config.now }
{
    shelf.begin_write(name)?;
    let mut file = FileSink::over(shelf);
    put_specialised(draft, config, &mut file)
}

/// Writes the file of the LUT netlist with the configuration bits as inputs.
///
/// If these inputs have the configuration for values of the parameters, the netlist is the source circuit for these values,
/// whatever the call returns.
///
/// # Errors
/// `Failed` only if the count of write faults rose. The file then is unchanged or empty, or has a prefix of its bytes that is
/// not all of them.
pub fn write_template<S: Shelf>(
    draft: &WritableSource,
    name: &str,
    shelf: &mut S,
) -> Result<(), Failed>
    requires { IsDraft draft.now }
    ensures cause { HasCause (S.seen shelf.old).write_faults (S.seen shelf.new).write_faults result }
    ensures written { WritesFile (template_text draft.now.mapped name.now) (S.seen shelf.old).files (S.seen shelf.new).files result }
    ensures given { (S.seen shelf.new).given ≡ (S.seen shelf.old).given }
    ensures means { IsTunedSource draft.now.mapped }
{
    shelf.begin_write(name)?;
    let mut file = FileSink::over(shelf);
    put_template(draft, &mut file)
}
