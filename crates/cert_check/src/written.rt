//! Writing the text of a certificate.
ghost use Rattle.std.specs.List.{flat_map};
ghost use Rattle.tl_io.specs.Sink.{IsPut};
ghost use Rattle.tl_piece.specs.Added.{IsAdded};
ghost use Rattle.cert_check.specs.CertText.{says_depth};
ghost use Rattle.cert_check.specs.WrittenText.{saying_words, line_text, cert_text, IsWritable, ReadsBack, number_text, path_text, claim_text, step_text};

use crate::certificate::{Certificate, NodePath, Step};
use tl_io::{Failed, Sink};
use tl_piece::{WriteBuffer, Writer};

// Adds a number after a blank.
fn add_number<O: Sink>(number: u32, writer: &mut Writer<'_, O>)
    ensures { IsAdded O.seen writer.old (number_text number) writer.new }
{
    writer.add_byte(b' ');
    writer.add_number(number as u64);
}

// Adds numbers, each after a blank.
fn add_numbers<O: Sink>(numbers: &[u32], writer: &mut Writer<'_, O>)
    ensures { IsAdded O.seen writer.old (flat_map number_text numbers.now) writer.new }
{
    for number in numbers {
        add_number(*number, writer);
    }
}

// Adds the line of the depth.
fn add_depth<O: Sink>(depth: u32, writer: &mut Writer<'_, O>)
    ensures { IsAdded O.seen writer.old (line_text (saying_words (says_depth depth))) writer.new }
{
    writer.add_text(b"depth");
    add_number(depth, writer);
    writer.add_byte(b'\n');
}

// Adds the line of a claim.
fn add_claim<O: Sink>(step: &Step, writer: &mut Writer<'_, O>)
    ensures { IsAdded O.seen writer.old (claim_text step.now) writer.new }
{
    writer.add_text(b"claim");
    add_number(step.node, writer);
    add_number(step.claim, writer);
    writer.add_byte(b'\n');
}

// Adds the line of a path.
fn add_path<O: Sink>(path: &NodePath, writer: &mut Writer<'_, O>)
    ensures { IsAdded O.seen writer.old (path_text path.now) writer.new }
{
    writer.add_text(b"path");
    add_numbers(&path.nodes, writer);
    writer.add_byte(b'\n');
}

// Adds the lines of paths.
fn add_paths<O: Sink>(paths: &[NodePath], writer: &mut Writer<'_, O>)
    ensures { IsAdded O.seen writer.old (flat_map path_text paths.now) writer.new }
{
    for path in paths {
        add_path(path, writer);
    }
}

// Adds the lines of a step.
fn add_step<O: Sink>(step: &Step, writer: &mut Writer<'_, O>)
    ensures { IsAdded O.seen writer.old (step_text step.now) writer.new }
{
    add_claim(step, writer);
    add_paths(&step.paths, writer);
}

// Adds the lines of steps.
fn add_steps<O: Sink>(steps: &[Step], writer: &mut Writer<'_, O>)
    ensures { IsAdded O.seen writer.old (flat_map step_text steps.now) writer.new }
{
    for step in steps {
        add_step(step, writer);
    }
}

// Adds the lines of a certificate.
fn add_cert<O: Sink>(cert: &Certificate, writer: &mut Writer<'_, O>)
    ensures { IsAdded O.seen writer.old (cert_text cert.now) writer.new }
{
    add_depth(cert.depth, writer);
    add_steps(&cert.steps, writer);
}

/// Writes the text of a certificate, in pieces of 4,096 bytes (the last may be shorter). [`read_cert`](crate::read_cert)
/// reads it as the same certificate, except for the line numbers. Allocates no memory; time is linear in the text.
///
/// # Errors
/// `Failed` only if the sink's count of faults rose. A prefix of the text is then written.
pub fn put_cert<O: Sink>(cert: &Certificate, out: &mut O) -> Result<(), Failed>
    ensures put { IsPut (O.seen out.old) (cert_text cert.now) (O.seen out.new) result }

    // The text is read as the same certificate if the claims are at least 1 and the paths have at least two nodes.
    ensures reads_back { IsWritable cert.now → ReadsBack (cert_text cert.now) cert.now }
{
    let mut piece = WriteBuffer::new();
    let mut writer = Writer::over(out, &mut piece);
    add_cert(cert, &mut writer);
    writer.finish()
}
