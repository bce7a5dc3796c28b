//! The texts of a run: its script, and its output, line by line. The parameter list is read by `param_list`, whose names are
//! exported here.
//!
//! [`read_script`] reads a script, one line for each [`Event`], or returns the first refusal of the text
//! (`specs/ScriptText.antt`). `specs/Sayings.antt` defines what a line says by its words. The [`ScriptNames`] of the run decide
//! whether it is allowed, and each event that is returned fits these names (`specs/Fits.antt`).
//!
//! - `setting.rt` reads the words of a `set`, `assigns.rt` finds their parameters, and `cycle_values.rt` reads a cycle's
//!   values.
//! - `script_line.rt` reads one line, and `script_lines.rt` all lines of a text.
//!
//! Each line of output is one definition in `specs/Lines.antt` and one call here, which writes the bytes of the line to a
//! sink through a [`LineBuf`], in pieces of 4,096 bytes. A line is a list of parts (`part.rt`), such as a word, a number, a
//! string of bits or a list of writes, and ends with a line feed. A `WriteBuffer` of `tl_piece` has the bytes that wait.
#![tactic(auto)]

mod assigns;
mod cycle_values;
mod event;
mod line_buf;
mod lines;
mod part;
mod script_err;
mod script_line;
mod script_lines;
mod scripts;
mod setting;
mod write_lines;

pub use event::{Event, Forms, MOST_EVENTS, ScriptNames};
pub use line_buf::LineBuf;
pub use lines::{put_bits_header, put_cycle, put_header, put_image};
pub use param_list::{ParErr, Param, Params, read_params, regular};
pub use script_err::ScriptErr;
pub use scripts::read_script;
pub use write_lines::{put_ask, put_scrub, put_set, put_upset, put_wait};
