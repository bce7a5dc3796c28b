//! Plays the rows of texts. A row has jobs of a program over files, outputs and ports in memory, and what each job must leave.
//!
//! A row is data; docs/rows.md describes its form. The caller passes the program to test as a `Program`, so this crate
//! doesn't depend on the program. The same texts can test any program over the same kinds of files, outputs and ports.
//!
//! - `heading.rt` splits a text into headings and the lines below them.
//! - `part.rt` reads the bytes of a text, including generated ones, whose numbers `number.rt` computes.
//! - `scene.rt` describes a job's files, outputs and ports and the expected result; `row.rt` reads both from a row's headings.
//! - `play.rt` runs a job, `compare.rt` reports differences, and `turn.rt` makes each call fail in turn.
//! - `report.rt` plays all rows of some texts and reports the results.
#![tactic(auto)]

mod compare;
mod heading;
mod number;
mod part;
mod play;
mod report;
mod row;
mod scene;
mod stop;
mod turn;

pub use play::Program;
pub use report::report_of;
