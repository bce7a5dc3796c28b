//! The command `gen`: maps a generated multiplier, and changes its coefficient a hundred times.
pub mod job;
pub mod lines;
pub mod play;
pub mod prepare;
pub mod totals;
pub mod words;
