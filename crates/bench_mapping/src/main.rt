//! Measures the stages of a mapping. `stages K NETLIST PARAMS CYCLES CHANGES` reads a netlist and its parameters from files,
//! takes them through each stage with LUTs of K inputs, and then plays CYCLES pseudo-random cycles and CHANGES changes of a
//! parameter. It prints the result of each stage, and its time. With a last argument `counts` it prints no times, so each run
//! prints the same.
#![tactic(auto)]

mod all_stages;
mod bench_err;
mod meter;
mod play;
mod random;
mod sources;
mod stages;

use crate::all_stages::{Task, time_stages};
use crate::bench_err::BenchErr;
use crate::meter::Meter;
use cut_enum::MOST_LEAVES;
use std::env;
use std::process::ExitCode;
use std::rt::Env;

fn read_words<R: Env + AllocGlobal>(rt: &R) -> Result<Vec<String>, BenchErr> {
    let mut words = Vec::new(rt.alloc());
    for word in env::args(rt)?.skip(1) {
        words.push(word)?;
    }
    Ok(words)
}

// The argument at a place, or nothing.
fn word(words: &[String], place: usize) -> &str {
    match words.get(place) {
        None => "",
        Some(word) => word.as_str(),
    }
}

fn number(words: &[String], place: usize) -> u32 {
    word(words, place).parse::<u32>().unwrap_or(0)
}

fn measure(rt: &HostRuntime) -> Result<(), BenchErr> {
    let words = read_words(rt)?;
    let k = number(&words, 1);
    if word(&words, 0) != "stages" || k < 2 || k as usize > MOST_LEAVES {
        return Err(BenchErr::Words);
    }
    let task = Task {
        k: k as u8,
        cycles: number(&words, 4),
        changes: number(&words, 5),
    };
    let timed = word(&words, 6) != "counts";
    let meter = Meter { rt, timed };
    time_stages(meter, task, word(&words, 2), word(&words, 3))
}

fn main(rt: HostRuntime) -> ExitCode {
    match measure(&rt) {
        Ok(()) => ExitCode::from(0),
        Err(BenchErr::Words) => ExitCode::from(2),
        Err(BenchErr::File) => ExitCode::from(3),
        Err(BenchErr::Refused) => ExitCode::from(4),
        Err(BenchErr::Outside) => ExitCode::from(6),
        Err(BenchErr::Memory) => ExitCode::from(8),
    }
}
