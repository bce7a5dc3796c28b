//! Lets each call of the shelf or of an output fail in turn, until a job leaves what it must.
use crate::compare::{differences, wanted_bytes};
use crate::play::{FailingCalls, PlayedCall, Program, run, untouched};
use crate::scene::{Calls, PlayedJob, SceneFile, find};
use crate::stop::PlayStop;
use std::alloc::{AllocError, Global};

// The most calls that are tried.
const MOST_CALLS: u64 = 10_000;

const READ_FAULT: u8 = 5;

const WRITE_FAULT: u8 = 6;

// Whether a file is as expected, or begun and written in part.
#[derive(Clone, Copy)]
enum Written {
    Whole,
    InPart,
    AsBefore,
}

fn how_written(is: &SceneFile, was: &SceneFile, wanted: &[u8]) -> Option<Written> {
    let bytes = is.bytes.as_slice();
    if bytes == wanted {
        Some(Written::Whole)
    } else if bytes == was.bytes.as_slice() {
        Some(Written::AsBefore)
    } else if wanted.starts_with(bytes) {
        Some(Written::InPart)
    } else {
        None
    }
}

// Whether the written files, in the order of the arguments, are first complete, then at most one in part, then unchanged.
fn are_cut_off(before: &[SceneFile], job: &PlayedJob, words: &[String], ran: &PlayedCall) -> bool {
    let mut is_whole = true;
    for word in words {
        let name = word.as_str();
        let (Some(is), Some(was), Some(wanted)) = (
            find(ran.files.as_slice(), name),
            find(before, name),
            find(job.wanted.files.as_slice(), name),
        ) else {
            continue;
        };
        match how_written(is, was, wanted.bytes.as_slice()) {
            Some(Written::Whole) if is_whole => {}
            Some(Written::InPart) if is_whole => is_whole = false,
            Some(Written::AsBefore) => is_whole = false,
            _ => return false,
        }
    }
    true
}

// Whether the files that the job doesn't write are as before; with `all`, each file.
fn are_kept(before: &[SceneFile], job: &PlayedJob, ran: &PlayedCall, all: bool) -> bool {
    for (is, was) in ran.files.iter().zip(before) {
        let is_written = find(job.wanted.files.as_slice(), was.name.as_str()).is_some();
        if (all || !is_written) && is.bytes.as_slice() != was.bytes.as_slice() {
            return false;
        }
    }
    true
}

// Whether the fault line names one of the files among the arguments that can't be read.
fn is_read_line(alloc: Global, words: &[String], err: &[u8]) -> Result<bool, AllocError> {
    for word in words {
        let line = format!(in alloc; "tlut: {}: read failed\n", word.as_str())?;
        if line.as_bytes() == err {
            return Ok(true);
        }
    }
    Ok(false)
}

// Whether a fault of the shelf or of the output explains what was left.
fn is_allowed(
    alloc: Global,
    before: &[SceneFile],
    job: &PlayedJob,
    words: &[String],
    ran: &PlayedCall,
) -> Result<bool, AllocError> {
    match ran.status {
        READ_FAULT => Ok(
            ran.out.bytes().is_empty()
                && is_read_line(alloc, words, ran.err.bytes())?
                && are_kept(before, job, ran, true)
                && ran.ports.as_str() == untouched(alloc, job.ports.len())?.as_str(),
        ),
        WRITE_FAULT => Ok(
            job.wanted.out.as_slice().starts_with(ran.out.bytes())
                && ran.err.bytes() == b"tlut: write failed\n".as_slice()
                && are_cut_off(before, job, words, ran)
                && are_kept(before, job, ran, false),
        ),
        _ => Ok(false),
    }
}

// Whether a fault of stderr explains what was left: all as expected, with a prefix of the fault line.
fn is_line_cut_off(job: &PlayedJob, before: &[SceneFile], ran: &PlayedCall) -> bool {
    for (is, was) in ran.files.iter().zip(before) {
        if is.bytes.as_slice() != wanted_bytes(job, was) {
            return false;
        }
    }
    ran.status == job.wanted.status
        && ran.out.bytes() == job.wanted.out.as_slice()
        && job.wanted.err.as_slice().starts_with(ran.err.bytes())
}

// The numbers of an object's failing calls, with call `turn` failing if its calls fail in turn.
fn these<'a>(calls: &'a Calls, turn: &'a [u64]) -> &'a [u64] {
    match calls {
        Calls::These(numbers) => numbers.as_slice(),
        Calls::InTurn => turn,
    }
}

fn is_in_turn(calls: &Calls) -> bool {
    matches!(calls, Calls::InTurn)
}

// Runs a job whose calls fail in turn, and returns the differences.
fn run_in_turn<P: Program>(
    alloc: Global,
    program: &P,
    files: &[SceneFile],
    job: &PlayedJob,
    words: &[String],
) -> Result<(PlayedCall, String), PlayStop> {
    for call in 0..MOST_CALLS {
        let turn = [call];
        let fails = FailingCalls {
            shelf: these(&job.shelf, &turn),
            out: these(&job.out, &turn),
            err: these(&job.err, &turn),
        };
        let ran = run(alloc, program, files, job, words, &fails)?;
        let mut text = differences(alloc, files, job, &ran)?;
        let is_allowed = if is_in_turn(&job.err) {
            is_line_cut_off(job, files, &ran)
        } else {
            is_allowed(alloc, files, job, words, &ran)?
        };
        if text.is_empty() && call == 0 {
            text.push_str("  call 0 fails, and nothing shows it\n")?;
        } else if !text.is_empty() && !is_allowed {
            write!(text, "  where call {call} fails\n")?;
        } else if !text.is_empty() {
            continue;
        }
        return Ok((ran, text));
    }
    Err(PlayStop::Unread(
        0,
        "a job of which each call fails in turn and that is never done",
    ))
}

/// Runs a job on files, and returns what it left and the differences.
pub fn run_job<P: Program>(
    alloc: Global,
    program: &P,
    files: &[SceneFile],
    job: &PlayedJob,
    words: &[String],
) -> Result<(PlayedCall, String), PlayStop> {
    if is_in_turn(&job.shelf) || is_in_turn(&job.out) || is_in_turn(&job.err) {
        return run_in_turn(alloc, program, files, job, words);
    }
    let fails = FailingCalls {
        shelf: these(&job.shelf, &[]),
        out: these(&job.out, &[]),
        err: these(&job.err, &[]),
    };
    let ran = run(alloc, program, files, job, words, &fails)?;
    let text = differences(alloc, files, job, &ran)?;
    Ok((ran, text))
}
