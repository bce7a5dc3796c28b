//! The command `bits`: plays a host script on a pack alone.
pub mod job;
pub mod play;
pub mod prepare;
pub mod words;
