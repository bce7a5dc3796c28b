//! The command `prove`: labels a source circuit, and writes the certificate of its least depth.
pub mod job;
