//! The commands `prove` and `audit`: certificates of the least depth of a source circuit's covers.
//!
//! `prove` writes a certificate that no cover is less deep than the mapper's. `audit` checks one against the netlist. It
//! doesn't enumerate cuts, and shares only the graph with the mapper.
//!
//! - `words.rt` has the arguments of both, `certs.rt` the file of a certificate, and `lines.rt` the lines that they print.
//! - `prove/` and `audit/` are the commands.
//!
//! The folders of `specs/` are the same.
#![tactic(auto)]

mod audit;
mod certs;
mod lines;
mod prove;
mod words;

pub use audit::job::audit_job;
pub use prove::job::prove_job;
pub use words::{CertWords, cert_name, read_audit, read_prove};
