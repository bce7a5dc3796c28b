//! The command `map`.
ghost use Rattle.std.specs.Prelude.{◌≡◌};
ghost use Rattle.cmd_base.specs.Walk.{PortlessEnds, HasLaws};
ghost use Rattle.cmd_stations.specs.Source.{IsTableSize};
ghost use Rattle.cmd_stations.specs.Tables.{IsDraft};
ghost use Rattle.cmd_map.specs.Map.{map_seen, map_walk};
ghost use Rattle.cmd_map.specs.Outputs.{IsTunedSource, WritesTemplate};

use crate::map::words::MapWords;
use cmd_base::Outcome;
use cmd_stations::{WritableSource, put_template_header, read_draft, write_pack, write_template};
use std::alloc::Global;
use tl_io::{Failed, Shelf, Sink};

// Writes the template, then the pack of its bits, and then the header line.
fn write_out<S: Shelf, O: Sink>(
    draft: &mut WritableSource,
    template: &str,
    pack: &str,
    shelf: &mut S,
    out: &mut O,
) -> Result<(), Failed>
    requires { IsDraft draft.old }
    ensures ends { WritesTemplate draft.old.mapped template.now pack.now (S.seen shelf.old) (S.seen shelf.new) (O.seen out.old) (O.seen out.new) result }
    ensures given { (S.seen shelf.new).given ≡ (S.seen shelf.old).given }
    ensures means { IsTunedSource draft.old.mapped }
{
    match write_template(draft, template, shelf) {
        Ok(()) => {}
        Err(failed) => return Err(failed),
    }
    match write_pack(&draft.mapped.tables.pack, pack, shelf) {
        Ok(()) => put_template_header(&draft.mapped.tables.template, &mut draft.buf, out),
        Err(failed) => Err(failed),
    }
}

/// Runs the command: maps a source circuit, and writes its template and the pack of its bits.
pub fn map_job<S: Shelf, O: Sink>(
    alloc: Global,
    words: &MapWords,
    shelf: &mut S,
    out: &mut O,
) -> Outcome
    requires { IsTableSize words.now.source.k }
    ensures ends { PortlessEnds (map_walk (map_seen words.now)) (S.seen shelf.old) (S.seen shelf.new) (O.seen out.old) (O.seen out.new) result }
    ensures laws { HasLaws (map_walk (map_seen words.now)) }
{
    let mut draft = match read_draft(alloc, &words.source, shelf) {
        Ok(draft) => draft,
        Err(outcome) => return outcome,
    };
    let written = write_out(&mut draft, words.template, words.pack, shelf, out);
    drop(draft);
    Outcome::of_writing(written)
}
