//! The header line of a template.
ghost use Rattle.std.specs.Prelude.{◌≤◌, length};
ghost use Rattle.tl_io.specs.Sink.{IsPut};
ghost use Rattle.cmd_stations.specs.Mapped.{template_header};

use cover_pick::Template;
use run_text::{LineBuf, put_header};
use tl_io::{Failed, Sink};

/// Writes the header line of a template, which has no more LUTs than bits: the number of LUTs, the number of their bits, and
/// their depth.
///
/// # Errors
/// `Failed` only if the sink's count of faults rose. A prefix of the line is then written.
pub fn put_template_header<O: Sink>(
    template: &Template,
    buf: &mut LineBuf,
    out: &mut O,
) -> Result<(), Failed>
    requires { length template.now.luts ≤ template.now.bits }
    ensures { IsPut (O.seen out.old) (template_header template.now) (O.seen out.new) result }
{
    let bits = template.bits;
    let luts = template.luts.len() as u32;
    put_header(luts, bits, template.depth, buf, out)
}
