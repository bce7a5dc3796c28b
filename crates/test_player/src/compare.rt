//! The differences between what a job left and what it must leave.
use crate::play::{PlayedCall, untouched};
use crate::scene::{PlayedJob, SceneFile, find};
use std::alloc::{AllocError, Global};

// The most bytes of a line that are shown.
const SHOWN: usize = 200;

// Adds the beginning of a line, with bytes that aren't printable, and the line feed, as escapes.
fn put_line(text: &mut String, line: &[u8]) -> Result<(), AllocError> {
    text.push_str("`")?;
    for byte in line.iter().take(SHOWN) {
        if *byte == b'\n' {
            text.push_str("\\n")?;
            break;
        }
        if byte.is_ascii_graphic() || *byte == b' ' {
            text.push(char::from(*byte))?;
        } else {
            write!(text, "\\x{byte:02x}")?;
        }
    }
    text.push_str("`")
}

// The line at a place of a text: its number from 0, and the text from its beginning on.
fn line_at(text: &[u8], place: usize) -> (u64, &[u8]) {
    let (mut number, mut begin) = (1u64, 0usize);
    for (i, byte) in text.iter().take(place).enumerate() {
        if *byte == b'\n' {
            number = number.wrapping_add(1);
            begin = i.wrapping_add(1);
        }
    }
    (number, text.get(begin..).unwrap_or(&[]))
}

// The first place where two texts differ, if there is one.
fn first_difference(is: &[u8], wanted: &[u8]) -> Option<usize> {
    for (place, (byte, must)) in is.iter().zip(wanted).enumerate() {
        if byte != must {
            return Some(place);
        }
    }
    if is.len() == wanted.len() {
        return None;
    }
    Some(is.len().min(wanted.len()))
}

// Adds the first line in which two texts differ, if there is one.
fn put_difference(
    text: &mut String,
    what: &str,
    is: &[u8],
    wanted: &[u8],
) -> Result<(), AllocError> {
    let Some(place) = first_difference(is, wanted) else {
        return Ok(());
    };
    let (number, line) = line_at(is, place);
    let (_, must) = line_at(wanted, place);
    write!(text, "  {what}, line {number}: ")?;
    put_line(text, line)?;
    text.push_str(", and not ")?;
    put_line(text, must)?;
    text.push_str("\n")
}

/// The bytes that a file must have after a job: the expected ones, or those of before.
pub fn wanted_bytes<'a>(job: &'a PlayedJob, before: &'a SceneFile) -> &'a [u8] {
    match find(job.wanted.files.as_slice(), before.name.as_str()) {
        Some(file) => file.bytes.as_slice(),
        None => before.bytes.as_slice(),
    }
}

// Adds the differences of the ports.
fn put_ports(
    alloc: Global,
    text: &mut String,
    job: &PlayedJob,
    ran: &PlayedCall,
) -> Result<(), AllocError> {
    if job.wanted.ports.is_empty() {
        let wanted = untouched(alloc, job.ports.len())?;
        put_difference(text, "ports", ran.ports.as_bytes(), wanted.as_bytes())
    } else {
        let wanted = job.wanted.ports.as_slice();
        put_difference(text, "ports", ran.ports.as_bytes(), wanted)
    }
}

/// The differences: a line for the status, for each output, for each file and for the ports, if they differ.
pub fn differences(
    alloc: Global,
    before: &[SceneFile],
    job: &PlayedJob,
    ran: &PlayedCall,
) -> Result<String, AllocError> {
    let mut text = String::new(alloc);
    let (status, wanted) = (ran.status, job.wanted.status);
    if status != wanted {
        write!(text, "  status {status}, and not {wanted}\n")?;
    }
    put_difference(&mut text, "out", ran.out.bytes(), job.wanted.out.as_slice())?;
    put_difference(&mut text, "err", ran.err.bytes(), job.wanted.err.as_slice())?;
    for (is, was) in ran.files.iter().zip(before) {
        let wanted = wanted_bytes(job, was);
        put_difference(&mut text, is.name.as_str(), is.bytes.as_slice(), wanted)?;
    }
    put_ports(alloc, &mut text, job, ran)?;
    Ok(text)
}
