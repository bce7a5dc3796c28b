//! The command `prove`.
ghost use Rattle.std.specs.Prelude.{◌≡◌, ◌≤◌, false, IfOk, IfErr, OnOk};
ghost use Rattle.tl_text.specs.declared.logical_lines.TheConstants.{MOST_BYTES};
ghost use Rattle.aig_core.specs.Roots.{roots_of};
ghost use Rattle.cut_sets.specs.Covers.{IsLeastDepth};
ghost use Rattle.cover_pick.specs.declared.rule.Rule.{Rule};
ghost use Rattle.cert_check.specs.Valid.{IsValid};
ghost use Rattle.cert_check.specs.WrittenText.{IsWritable, cert_text};
ghost use Rattle.cmd_base.specs.Walk.{KeepsFiles, PortlessEnds, Explains, Told, HasLaws};
ghost use Rattle.cmd_stations.specs.Source.{IsTableSize, source_reading};
ghost use Rattle.cmd_stations.specs.Mapped.{ToLabels};
ghost use Rattle.cmd_stations.specs.Tables.{IsLabelledSource, ComesToLabels};
ghost use Rattle.cmd_cert.specs.Certs.{cert_seen};
ghost use Rattle.cmd_cert.specs.Certs as told;
ghost use Rattle.cmd_cert.specs.Prove.{prove_walk};
ghost use Rattle.cmd_cert.specs.Proofs.{IsProof, WritesProof};

use crate::certs::write_cert;
use crate::lines::{proved_line, put_line};
use crate::words::CertWords;
use cert_check::Certificate;
use cmd_base::Outcome;
use cmd_stations::{LabelledSource, read_labelled};
use flow_cert::certify_by_flow;
use std::alloc::{AllocError, Global};
use tl_io::{Failed, Shelf, Sink};

/// A labelled source circuit, the certificate of its least depth, and the line to print.
#[derive(Drop)]
pub struct Proof {
    pub labelled: LabelledSource,
    pub cert: Certificate,
    pub line: String,
}

// The certificate of a labelled source circuit, and its line.
fn make_proof(alloc: Global, labelled: LabelledSource, k: u8) -> Result<Proof, AllocError>
    requires size { IsTableSize k }
    requires labelled { (rule : Rule) × IsLabelledSource rule k labelled }
    ensures labelled { IfOk result (λ p. p.labelled ≡ labelled) }
    ensures proof { IfOk result (λ p. (rule : Rule) → IsLabelledSource rule k labelled → IsProof rule k p) }
{
    let built = &labelled.built;
    let certified = certify_by_flow(alloc, &built.graph, &built.roots, &labelled.labels, k);
    let cert = match certified {
        Ok(cert) => cert,
        Err(error) => {
            drop(labelled);
            return Err(error);
        }
    };
    match proved_line(alloc, cert.depth) {
        Ok(line) => Ok(Proof {
            labelled,
            cert,
            line,
        }),
        Err(error) => {
            drop(labelled);
            drop(cert);
            Err(error)
        }
    }
}

// Reads a source circuit, and makes its certificate.
fn read_proof<S: Shelf>(alloc: Global, words: &CertWords, shelf: &mut S) -> Result<Proof, Outcome>
    requires { IsTableSize words.now.source.k }
    ensures proof { IfOk result (IsProof words.now.source.rule words.now.source.k) }
    ensures comes { IfOk result (λ p. Told (S.seen shelf.old).files (λ files. ComesToLabels files (cert_seen words.now).source p.labelled)) }
    ensures given { OnOk result ((S.seen shelf.new).given ≤ MOST_BYTES) }
    ensures err { IfErr result (Explains (source_reading ToLabels (cert_seen words.now).source) (S.seen shelf.old) (S.seen shelf.new)) }
    ensures keeps { KeepsFiles (S.seen shelf.old) (S.seen shelf.new) }
    ensures not_writing { (S.seen shelf.new).is_writing ≡ false }
{
    let labelled = match read_labelled(alloc, &words.source, shelf) {
        Ok(labelled) => labelled,
        Err(outcome) => return Err(outcome),
    };
    match make_proof(alloc, labelled, words.source.k) {
        Ok(proof) => Ok(proof),
        Err(_) => Err(Outcome::Memory),
    }
}

// Writes the certificate, and then the line.
fn write_out<S: Shelf, O: Sink>(
    proof: &Proof,
    name: &str,
    shelf: &mut S,
    out: &mut O,
) -> Result<(), Failed>
    ensures ends { WritesProof name.now proof.now (S.seen shelf.old) (S.seen shelf.new) (O.seen out.old) (O.seen out.new) result }
    ensures given { (S.seen shelf.new).given ≡ (S.seen shelf.old).given }
{
    match write_cert(&proof.cert, name, shelf) {
        Ok(()) => put_line(proof.line.as_str(), out),
        Err(failed) => Err(failed),
    }
}

/// Runs the command: labels a source circuit, and writes the certificate of its least depth.
pub fn prove_job<S: Shelf, O: Sink>(
    alloc: Global,
    words: &CertWords,
    shelf: &mut S,
    out: &mut O,
) -> Outcome
    requires { IsTableSize words.now.source.k }
    ensures ends { PortlessEnds (prove_walk (cert_seen words.now)) (S.seen shelf.old) (S.seen shelf.new) (O.seen out.old) (O.seen out.new) result }
    ensures laws { HasLaws (prove_walk (cert_seen words.now)) }
{
    let proof = match read_proof(alloc, words, shelf) {
        Ok(proof) => proof,
        Err(outcome) => return outcome,
    };
    let written = write_out(&proof, words.cert, shelf, out);
    drop(proof);
    Outcome::of_writing(written)
}
