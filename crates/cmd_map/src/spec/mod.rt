//! The command `spec`: maps a source circuit, and writes its LUTs under the configuration for the listed values.
pub mod job;
pub mod words;
