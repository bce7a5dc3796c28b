//! The command `repack`: writes a pack in version 2.
pub mod job;
pub mod words;
