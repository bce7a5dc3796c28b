//! Parameters: the inputs of a circuit that seldom change, and the lists that name them.
//!
//! [`read_params`] reads a parameter list, one line for each [`Param`], or returns the first refusal of the text
//! (`specs/ParamsText.antt`). The parameters are inputs of a flat circuit, each at most once (`specs/Parameters.antt`).
//! [`regular`] gives the places of the other inputs.
//!
//! - `params.rt` has `read_params` and its types, and `par_err.rt` the refusals.
//! - `param_line.rt` reads one line, and `param_lines.rt` all lines of a text.
//! - `regular_inputs.rt` has `regular`.
#![tactic(auto)]

mod par_err;
mod param_line;
mod param_lines;
mod params;
mod regular_inputs;

pub use par_err::ParErr;
pub use params::{Param, Params, read_params};
pub use regular_inputs::regular;
