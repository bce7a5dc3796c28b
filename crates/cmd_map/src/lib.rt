//! The commands `spec` and `map`: they map a source circuit and write its LUTs as a netlist.
//!
//! `spec` writes them under the configuration for the listed values of the parameters. `map` writes a template, in which each
//! bit of the LUTs is an input, and the pack of these bits.
//!
//! - `spec/` and `map/` are the commands: the arguments and the writing of each.
//!
//! The folders of `specs/` are the same.
#![tactic(auto)]

mod map;
mod spec;

pub use map::job::map_job;
pub use map::words::{MapWords, read_map};
pub use spec::job::spec_job;
pub use spec::words::{SpecWords, read_spec};
