//! Plays the rows of texts over the program: jobs with what each must leave.
//!
//! A proof shows that the program keeps to its contract. It doesn't show that the contract says what a user expects, nor
//! that memory is there and a job is done at all. The rows do. They are data: `data/` has a folder for each subject, and
//! docs/rows.md says how a row is written. The words of the program are the names of the texts, and `test_player` plays them.
//!
//! Definitions have worked examples too, as lemmas in `proofs/`: `TextExamples.antt` has a text with the library that it
//! denotes and one text for each refusal, `JobExamples.antt` words, ports, what a script may name, and fault lines, and
//! `CommandExamples.antt` the forms of the commands.
#![tactic(auto)]

use std::alloc::Global;
use std::io;
use test_player::{Program, report_of};
use tl_io::{ConfigPort, DiskShelf, MemShelf, MemSink};
use tlut_cli::{Rule, tlut, tlut_by};

// The program of which the rows are jobs: the second one if `--compact` is before the arguments.
struct Tlut;

impl Program for Tlut {
    fn run(
        &self,
        alloc: Global,
        words: &[String],
        shelf: &mut MemShelf,
        out: &mut MemSink,
        err: &mut MemSink,
        ports: &mut Vec<Box<dyn ConfigPort>>,
    ) -> u8 {
        match words {
            [first, rest @ ..] if first.as_str() == "--compact" => {
                tlut_by(alloc, Rule::LeastCost, rest, shelf, out, err, ports).code()
            }
            _ => tlut(alloc, words, shelf, out, err, ports).code(),
        }
    }
}

fn main(rt: HostRuntime) -> io::Result<()> {
    let mut shelf = DiskShelf::make(rt);
    let report = report_of(&rt, &mut shelf, &Tlut)?;
    let lines = report.as_str();
    print!(rt; "{lines}")
}
