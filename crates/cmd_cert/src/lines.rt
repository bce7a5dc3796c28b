//! The lines that `prove` and `audit` print.
ghost use Rattle.std.specs.Prelude.{◌≡◌, IfOk, string_bytes};
ghost use Rattle.tl_io.specs.Sink.{IsPut};
ghost use Rattle.cmd_cert.specs.Certs as told;

use std::alloc::{AllocError, Global};
use tl_io::{Failed, Sink};

/// The line that `prove` prints: the depth of its certificate.
pub fn proved_line(alloc: Global, depth: u32) -> Result<String, AllocError>
    ensures { IfOk result (λ line. string_bytes line ≡ told.proved_line depth) }
{
    format!(in alloc; "depth {}\n", depth)
}

/// The line that `audit` prints: a lower bound of the depth of every cover.
pub fn audited_line(alloc: Global, depth: u32) -> Result<String, AllocError>
    ensures { IfOk result (λ line. string_bytes line ≡ told.audited_line depth) }
{
    format!(in alloc; "depth at least {}\n", depth)
}

/// Writes a line.
///
/// # Errors
/// `Failed` only if the sink's count of faults rose. A prefix of the line is then written.
pub fn put_line<O: Sink>(line: &str, out: &mut O) -> Result<(), Failed>
    ensures { IsPut (O.seen out.old) line.now (O.seen out.new) result }
{
    out.put(line.as_bytes())
}
