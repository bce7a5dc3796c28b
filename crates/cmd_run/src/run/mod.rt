//! The command `run`: maps a source circuit, and plays a script on it.
pub mod job;
pub mod play;
pub mod prepare;
pub mod words;
