//! The command `graph`: writes the graph of a source circuit as a file in AIGER's ASCII format.
//!
//! - `words.rt` has its arguments, `export.rt` the preparation and the file, and `job.rt` the command.
#![tactic(auto)]

mod export;
mod job;
mod words;

pub use job::graph_job;
pub use words::{GraphWords, read_graph_words};
