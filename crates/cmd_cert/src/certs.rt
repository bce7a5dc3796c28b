//! The file of a certificate: reading, checking and writing.
ghost use Rattle.std.specs.Prelude.{◌≡◌, ◌≤◌, false, length, IfOk, IfErr, OnOk};
ghost use Rattle.tl_fault.specs.OrMemory.{OrMemory};
ghost use Rattle.tl_text.specs.declared.logical_lines.TheConstants.{MOST_BYTES};
ghost use Rattle.tl_io.specs.Causes.{HasCause};
ghost use Rattle.aig_core.specs.Roots.{roots_of};
ghost use Rattle.cert_check.specs.CertText.{IsCertText};
ghost use Rattle.cert_check.specs.Refusals.{refusal_of};
ghost use Rattle.cert_check.specs.Valid.{IsValid};
ghost use Rattle.cert_check.specs.WrittenText.{cert_text};
ghost use Rattle.cmd_base.specs.Walk.{Told, Explains, KeepsFiles};
ghost use Rattle.cmd_stations.specs.FileWrites.{WritesFile};
ghost use Rattle.cmd_stations.specs.Tables.{IsBuiltSource, ComesToGraph};
ghost use Rattle.cmd_cert.specs.Certs.{cert_seen, HasCert, IsCertFault};
ghost use Rattle.cmd_cert.specs.Proofs.{outcome_by};
ghost use Rattle.cmd_cert.specs.Audit.{audit_reading};

use crate::words::CertWords;
use cert_check::{CertErr, Certificate, check, put_cert, read_cert};
use cmd_base::{File, Outcome};
use cmd_stations::{BuiltSource, read_file};
use std::alloc::Global;
use tl_fault::Reported;
use tl_io::{Failed, FileSink, Shelf};

// The outcome of a certificate's refusal.
fn outcome_of(error: CertErr) -> Outcome
    ensures { result ≡ outcome_by (refusal_of error) }
{
    match error.refusal() {
        Some(refusal) => Outcome::Refused(File::Cert, refusal),
        None => Outcome::Memory,
    }
}

// The certificate in a text, checked for a graph and its roots.
fn read_checked(
    alloc: Global,
    text: &[u8],
    built: &BuiltSource,
    k: u8,
) -> Result<Certificate, CertErr>
    requires { length text.now ≤ MOST_BYTES }
    ensures text_is { IfOk result (IsCertText text.now) }
    ensures valid { IfOk result (IsValid built.now.graph (roots_of built.now.roots) k) }
    ensures fault { IfErr result (OrMemory refusal_of (IsCertFault built.now.graph built.now.roots k text.now)) }
{
    let cert = read_cert(alloc, text)?;
    check(alloc, &built.graph, &built.roots, k, &cert)?;
    Ok(cert)
}

/// Reads a certificate from its file, and checks it for the graph of the source circuit.
///
/// # Errors
/// The outcome of `audit`, which ends here.
pub fn read_valid<S: Shelf>(
    alloc: Global,
    words: &CertWords,
    built: &BuiltSource,
    shelf: &mut S,
) -> Result<Certificate, Outcome>
    requires built { IsBuiltSource built.now }
    requires comes { Told (S.seen shelf.old).files (λ files. ComesToGraph files (cert_seen words.now).source built.now) }
    ensures has { IfOk result (λ cert. Told (S.seen shelf.old).files (λ files. HasCert files (cert_seen words.now).cert cert)) }
    ensures valid { IfOk result (IsValid built.now.graph (roots_of built.now.roots) words.now.source.k) }
    ensures given { OnOk result ((S.seen shelf.new).given ≤ MOST_BYTES) }
    ensures err { IfErr result (Explains (audit_reading (cert_seen words.now)) (S.seen shelf.old) (S.seen shelf.new)) }
    ensures keeps { KeepsFiles (S.seen shelf.old) (S.seen shelf.new) }
    ensures not_writing { (S.seen shelf.new).is_writing ≡ false }
{
    let text = match read_file(alloc, words.cert, File::Cert, shelf) {
        Ok(text) => text,
        Err(outcome) => return Err(outcome),
    };
    match read_checked(alloc, &text, built, words.source.k) {
        Ok(cert) => Ok(cert),
        Err(error) => Err(outcome_of(error)),
    }
}

/// Writes the file of a certificate.
///
/// # Errors
/// `Failed` only if the count of write faults rose. The file then is unchanged or empty, or has a prefix of its bytes that is
/// not all of them.
pub fn write_cert<S: Shelf>(cert: &Certificate, name: &str, shelf: &mut S) -> Result<(), Failed>
    ensures cause { HasCause (S.seen shelf.old).write_faults (S.seen shelf.new).write_faults result }
    ensures written { WritesFile (record { name = name.now; bytes = cert_text cert.now }) (S.seen shelf.old).files (S.seen shelf.new).files result }
    ensures given { (S.seen shelf.new).given ≡ (S.seen shelf.old).given }
{
    shelf.begin_write(name)?;
    let mut file = FileSink::over(shelf);
    put_cert(cert, &mut file)
}
