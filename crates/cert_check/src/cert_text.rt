//! Reading the text of a certificate.
ghost use Rattle.std.specs.Prelude.{◌≡◌, ◌≤◌, length, Ok, IfOk, IfErr};
ghost use Rattle.tl_fault.specs.OrMemory.{OrMemory};
ghost use Rattle.tl_text.specs.declared.logical_lines.TheConstants.{MOST_BYTES};
ghost use Rattle.cert_check.specs.CertText.{cert_err, IsCertText, IsCertTextFault, HasOneReading};
ghost use Rattle.cert_check.specs.Refusals.{refusal_of};
ghost use Rattle.cert_check.specs.WrittenText.{IsWritable};

use crate::cert_err::CertErr;
use crate::cert_lines::read_lines;
use crate::certificate::Certificate;
use std::alloc::Global;
use tl_text::{TextErr, lines};

// The refusal of a certificate that stands for this fault of its lines.
fn lines_err(error: TextErr) -> CertErr
    ensures { result ≡ cert_err error }
{
    match error {
        TextErr::BadByte(line) => CertErr::BadByte(line),
        TextErr::TrailingSlash(line) => CertErr::TrailingSlash(line),
        TextErr::Memory => CertErr::Memory,
    }
}

/// Reads a certificate: the line `depth D`, and then for each step a line `claim NODE H`, with H at least 1, and any number
/// of lines `path` with the numbers of two or more nodes. All numbers are decimal and at most 4,294,967,295.
///
/// The result can be written again: its claims are at least 1, and its paths have at least two nodes. Time and memory are
/// linear in the text.
///
/// # Errors
/// The refusal of the text, by `specs/CertText.antt`: T1 and T2 of its physical lines; otherwise C1 at the first logical line
/// that has an invalid form or is in the wrong place, and at line 1 if there is none. `Memory` if memory runs out. A text is
/// one certificate or has one refusal, and not both.
pub fn read_cert(alloc: Global, text: &[u8]) -> Result<Certificate, CertErr>
    requires { length text.now ≤ MOST_BYTES }
    ensures certificate { IfOk result (IsCertText text.now) }
    ensures writable { IfOk result (λ cert. IsWritable cert) }
    ensures fault { IfErr result (OrMemory refusal_of (IsCertTextFault text.now)) }
    ensures one_reading { HasOneReading text.now }
{
    match lines(alloc, text) {
        Ok(found) => read_lines(alloc, text, &found),
        Err(error) => Err(lines_err(error)),
    }
}
