//! Runs the examples, and compares their output and the writes to their configuration ports with the expected texts.
//!
//! `data/` has a folder for each netlist; `examples` at the top of the repository is a link to it. The program runs in that
//! folder. Each example has the arguments of a command line on these files, the file with the expected output, and the files
//! with the expected writes to its ports. One line for each example reports the result; the file `stdout` beside `src/` has
//! the expected lines.
#![tactic(auto)]

use std::alloc::{AllocError, Global};
use std::io;
use tl_io::{ConfigPort, DiskShelf, MemPort, MemSink, Shelf, slurp};
use tlut_cli::{Rule, Status, tlut_by};

// The size of the buffer for an example's output, in bytes.
const ROOM: usize = 10_000;

// The number of ports, and the number of writes that each can take.
const PORTS: usize = 4;

const WRITES: usize = 1_000;

// The rule, the arguments of a command line, the file with the expected output, and the files with the expected writes to the
// first ports. All other ports are expected to receive nothing.
struct Example {
    rule: Rule,
    words: &'static str,
    printed: &'static str,
    taken: &'static [&'static str],
}

// A table of examples, one a line: the rule and the arguments, and then the files.
macro_rules! examples {
    ($($rule:ident $words:literal => $printed:literal $($taken:literal)*;)*) => {
        [$(Example {
            rule: Rule::$rule,
            words: $words,
            printed: $printed,
            taken: &[$($taken),*],
        }),*]
    };
}

const EXAMPLES: [Example; 18] = examples! {
    FewestLeaves "run 2 and2/and2.blif and2/none.par and2/one.scr 0 0" => "and2/expected.txt";
    FewestLeaves "run 6 and7/and7.blif and7/none.par and7/two.scr 0 0" => "and7/expected.txt";
    FewestLeaves "run 6 and7/and7.blif and7/tuned.par and7/tuned.scr 0 0" => "and7/expected_tuned.txt";
    FewestLeaves "run 2 mux/mux.blif mux/mux.par mux/events.scr 2 1" => "mux/expected.txt" "mux/expected_port0.bits" "mux/expected_port1.bits";
    FewestLeaves "run 4 fir/fir.blif fir/fir.par fir/ten.scr 0 0" => "fir/expected.txt";
    FewestLeaves "run 4 fir/fir.blif fir/fir.par fir/changing.scr 0 0" => "fir/expected_changing.txt";
    FewestLeaves "run 4 matcher/matcher.blif matcher/matcher.par matcher/patterns.scr 0 0" => "matcher/expected.txt";
    FewestLeaves "run 4 matcher/matcher.blif matcher/none.par matcher/inputs.scr 0 0" => "matcher/expected_inputs.txt";
    FewestLeaves "run 4 coder/coder.blif coder/coder.par coder/keys.scr 0 0" => "coder/expected.txt";
    FewestLeaves "run 4 guard/guard.blif guard/none.par guard/four.scr 0 0" => "guard/expected.txt";
    FewestLeaves "run 4 vote/vote.aag vote/vote.par vote/votes.scr 0 0" => "vote/expected.txt";
    FewestLeaves "pace 4 fir/fir.blif fir/fir.par fir/pace.scr 1" => "fir/expected_pace1.txt";
    FewestLeaves "pace 4 fir/fir.blif fir/fir.par fir/pace.scr 4" => "fir/expected_pace4.txt";
    FewestLeaves "audit 2 xor/xor.blif xor/none.par xor/two.cert" => "xor/expected.txt";
    FewestLeaves "audit 4 fir/fir.blif fir/fir.par fir/depth.cert" => "fir/expected_audit.txt";
    LeastCost "run 4 fir/fir.blif fir/fir.par fir/ten.scr 0 0" => "fir/expected_compact.txt";
    LeastCost "run 4 matcher/matcher.blif matcher/matcher.par matcher/patterns.scr 0 0" => "matcher/expected_compact.txt";
    LeastCost "run 4 coder/coder.blif coder/coder.par coder/keys.scr 0 0" => "coder/expected_compact.txt";
};

fn strings(alloc: Global, words: &str) -> Result<Vec<String>, AllocError> {
    let mut strings = Vec::new(alloc);
    for word in words.split_whitespace() {
        strings.push(String::from_str(alloc, word)?)?;
    }
    Ok(strings)
}

// Returns whether a file has these bytes.
fn has_bytes<S: Shelf>(alloc: Global, shelf: &mut S, file: &str, bytes: &[u8]) -> bool {
    match slurp(alloc, shelf, file, ROOM as u64) {
        Ok(text) => text.as_slice() == bytes,
        Err(_) => false,
    }
}

// The lines of the writes to a port, in the format of a port that writes to a file.
fn port_lines<P: ConfigPort>(alloc: Global, port: &P) -> Result<String, AllocError> {
    let mut lines = String::new(alloc);
    for i in 0..WRITES {
        let Some(write) = port.logged(i) else {
            break;
        };
        write!(lines, "{}={}\n", write.address, u8::from(write.bit))?;
    }
    Ok(lines)
}

// Returns whether each port received the writes in its file, and the ports without a file nothing.
fn have_taken<S: Shelf, P: ConfigPort>(
    alloc: Global,
    shelf: &mut S,
    ports: &[P],
    files: &[&str],
) -> Result<bool, AllocError> {
    for (i, port) in ports.iter().enumerate() {
        let lines = port_lines(alloc, port)?;
        let as_expected = match files.get(i) {
            Some(file) => has_bytes(alloc, shelf, file, lines.as_bytes()),
            None => lines.is_empty(),
        };
        if !as_expected {
            return Ok(false);
        }
    }
    Ok(true)
}

// Runs an example. Returns whether it is done, its output is as expected, and its ports received the expected writes.
fn is_as_expected<S: Shelf>(
    alloc: Global,
    shelf: &mut S,
    example: &Example,
) -> Result<bool, AllocError> {
    let words = strings(alloc, example.words)?;
    let mut out = MemSink::make(alloc, ROOM, &[])?;
    let mut err = MemSink::make(alloc, ROOM, &[])?;
    let mut ports: Vec<Box<dyn ConfigPort>> = Vec::new(alloc);
    for _ in 0..PORTS {
        ports.push(Box::new(alloc, MemPort::make(alloc, WRITES, &[])?)?)?;
    }
    let status = tlut_by(
        alloc,
        example.rule,
        &words,
        shelf,
        &mut out,
        &mut err,
        &mut ports,
    );
    Ok(
        status == Status::Done
            && has_bytes(alloc, shelf, example.printed, out.bytes())
            && have_taken(alloc, shelf, &ports, example.taken)?,
    )
}

fn main(rt: HostRuntime) -> io::Result<()> {
    let mut shelf = DiskShelf::make(rt);
    for example in &EXAMPLES {
        let printed = example.printed;
        if is_as_expected(rt.alloc(), &mut shelf, example)? {
            println!(rt; "{printed}: as expected")?;
        } else {
            println!(rt; "{printed}: OTHERWISE")?;
        }
    }
    Ok(())
}
