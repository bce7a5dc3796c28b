//! The command `audit`.
ghost use Rattle.std.specs.Prelude.{◌≡◌, ◌≤◌, false, IfOk, IfErr, OnOk};
ghost use Rattle.tl_text.specs.declared.logical_lines.TheConstants.{MOST_BYTES};
ghost use Rattle.aig_core.specs.Roots.{roots_of};
ghost use Rattle.cert_check.specs.Valid.{IsValid};
ghost use Rattle.cmd_base.specs.Walk.{KeepsFiles, PortlessEnds, Explains, Told, HasLaws};
ghost use Rattle.cmd_stations.specs.Tables.{IsBuiltSource, ComesToGraph};
ghost use Rattle.cmd_cert.specs.Certs.{cert_seen, HasCert};
ghost use Rattle.cmd_cert.specs.Audit.{audit_reading, audit_walk};

use crate::certs::read_valid;
use crate::lines::{audited_line, put_line};
use crate::words::CertWords;
use cert_check::Certificate;
use cmd_base::Outcome;
use cmd_stations::{BuiltSource, read_graph};
use std::alloc::Global;
use tl_io::{Shelf, Sink};

/// A source circuit with its graph, and a certificate that is valid for it.
#[derive(Drop)]
pub struct Audited {
    pub built: BuiltSource,
    pub cert: Certificate,
}

// Reads a source circuit, and a certificate that is valid for its graph.
#[tactic(auto, using(cmd_base::proofs::EndLemmas::keeps_past))]
fn read_audited<S: Shelf>(
    alloc: Global,
    words: &CertWords,
    shelf: &mut S,
) -> Result<Audited, Outcome>
    ensures comes { IfOk result (λ a. Told (S.seen shelf.old).files (λ files. ComesToGraph files (cert_seen words.now).source a.built)) }
    ensures normal { IfOk result (λ a. IsBuiltSource a.built) }
    ensures has { IfOk result (λ a. Told (S.seen shelf.old).files (λ files. HasCert files (cert_seen words.now).cert a.cert)) }
    ensures valid { IfOk result (λ a. IsValid a.built.graph (roots_of a.built.roots) words.now.source.k a.cert) }
    ensures given { OnOk result ((S.seen shelf.new).given ≤ MOST_BYTES) }
    ensures err { IfErr result (Explains (audit_reading (cert_seen words.now)) (S.seen shelf.old) (S.seen shelf.new)) }
    ensures keeps { KeepsFiles (S.seen shelf.old) (S.seen shelf.new) }
    ensures not_writing { (S.seen shelf.new).is_writing ≡ false }
{
    let built = match read_graph(alloc, &words.source, shelf) {
        Ok(built) => built,
        Err(outcome) => return Err(outcome),
    };
    match read_valid(alloc, words, &built, shelf) {
        Ok(cert) => Ok(Audited { built, cert }),
        Err(outcome) => {
            drop(built);
            Err(outcome)
        }
    }
}

/// Runs the command: builds the graph of a source circuit, and checks a certificate against it. Doesn't enumerate cuts.
///
/// All memory is allocated before the first byte of `out`.
pub fn audit_job<S: Shelf, O: Sink>(
    alloc: Global,
    words: &CertWords,
    shelf: &mut S,
    out: &mut O,
) -> Outcome
    ensures ends { PortlessEnds (audit_walk (cert_seen words.now)) (S.seen shelf.old) (S.seen shelf.new) (O.seen out.old) (O.seen out.new) result }
    ensures files { (S.seen shelf.new).files ≡ (S.seen shelf.old).files }
    ensures laws { HasLaws (audit_walk (cert_seen words.now)) }
{
    let audited = match read_audited(alloc, words, shelf) {
        Ok(audited) => audited,
        Err(outcome) => return outcome,
    };
    let line = audited_line(alloc, audited.cert.depth);
    drop(audited);
    let line = match line {
        Ok(line) => line,
        Err(_) => return Outcome::Memory,
    };
    match put_line(line.as_str(), out) {
        Ok(()) => Outcome::Done,
        Err(_) => Outcome::WriteFault,
    }
}
