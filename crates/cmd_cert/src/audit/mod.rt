//! The command `audit`: builds the graph of a source circuit, and checks a certificate against it.
pub mod job;
