//! The command `spec`.
ghost use Rattle.std.specs.Prelude.{◌≡◌, IfOk};
ghost use Rattle.param_list.specs.Parameters.{param_inits};
ghost use Rattle.ppc_pack.specs.Pack.{IsConf};
ghost use Rattle.cmd_base.specs.Walk.{PortlessEnds, HasLaws};
ghost use Rattle.cmd_stations.specs.Source.{IsTableSize};
ghost use Rattle.cmd_stations.specs.Tables.{IsDraft};
ghost use Rattle.cmd_map.specs.Spec.{spec_seen, spec_walk};
ghost use Rattle.cmd_map.specs.Outputs.{RunsSpecialised, WritesSpecialised};

use crate::spec::words::SpecWords;
use cmd_base::Outcome;
use cmd_stations::{WritableSource, put_template_header, read_draft, write_specialised};
use run_text::Param;
use std::alloc::{AllocError, Global};
use tl_io::{Failed, Shelf, Sink};

// The listed values of parameters.
fn listed_values(alloc: Global, params: &[Param]) -> Result<Vec<bool>, AllocError>
    ensures { IfOk result (λ values. values.items ≡ param_inits params.now) }
{
    params.iter().map(|param| param.init).collect(alloc)
}

// The configuration of the listed values.
fn listed_config(alloc: Global, draft: &WritableSource) -> Result<Vec<bool>, AllocError>
    requires { IsDraft draft.now }
    ensures { IfOk result (λ config. IsConf draft.now.mapped.tables.pack (param_inits draft.now.mapped.source.params.list) config.items) }
{
    let values = listed_values(alloc, &draft.mapped.source.params.list)?;
    draft.mapped.tables.pack.conf(alloc, &values)
}

// Writes the specialised netlist, and then the header line.
fn write_out<S: Shelf, O: Sink>(
    draft: &mut WritableSource,
    config: &[bool],
    name: &str,
    shelf: &mut S,
    out: &mut O,
) -> Result<(), Failed>
    requires { IsDraft draft.old }
    ensures ends { WritesSpecialised draft.old.mapped config.now name.now (S.seen shelf.old) (S.seen shelf.new) (O.seen out.old) (O.seen out.new) result }
    ensures given { (S.seen shelf.new).given ≡ (S.seen shelf.old).given }
    ensures means { RunsSpecialised draft.old.mapped config.now }
{
    match write_specialised(draft, config, name, shelf) {
        Ok(()) => put_template_header(&draft.mapped.tables.template, &mut draft.buf, out),
        Err(failed) => Err(failed),
    }
}

/// Runs the command: maps a source circuit, and writes its LUTs under the configuration for the listed values.
pub fn spec_job<S: Shelf, O: Sink>(
    alloc: Global,
    words: &SpecWords,
    shelf: &mut S,
    out: &mut O,
) -> Outcome
    requires { IsTableSize words.now.source.k }
    ensures ends { PortlessEnds (spec_walk (spec_seen words.now)) (S.seen shelf.old) (S.seen shelf.new) (O.seen out.old) (O.seen out.new) result }
    ensures laws { HasLaws (spec_walk (spec_seen words.now)) }
{
    let mut draft = match read_draft(alloc, &words.source, shelf) {
        Ok(draft) => draft,
        Err(outcome) => return outcome,
    };
    let config = match listed_config(alloc, &draft) {
        Ok(config) => config,
        Err(_) => {
            drop(draft);
            return Outcome::Memory;
        }
    };
    let written = write_out(&mut draft, &config, words.out, shelf, out);
    drop(draft);
    Outcome::of_writing(written)
}
