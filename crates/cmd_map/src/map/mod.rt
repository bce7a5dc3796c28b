//! The command `map`: maps a source circuit, and writes its template and the pack of its bits.
pub mod job;
pub mod words;
