//! Checks of the standard streams before the program opens any file.
//!
//! A file that is opened gets the lowest free descriptor. If a standard stream is closed, this is the stream's descriptor,
//! and output for the stream would go into the file. If a stream is a file that the command writes, its lines would spoil the
//! file's text.

use std::fs::File;
use std::io::IsTerminal;
use std::os::fd::AsFd;
use std::rt::Files;
use std::{fs, io};
use tl_io::FileId;
use tlut_cli::Outputs;

// The null device.
const NULL: &str = "/dev/null";

// The open files after stdout and stderr. `/dev/stdout` could be a file of its own.
const OUTPUT: &str = "/proc/self/fd/1";

const ERRORS: &str = "/proc/self/fd/2";

// Returns whether a stream is open: the descriptor of a closed one can't be duplicated.
fn is_open<S: AsFd>(stream: &S) -> bool {
    stream.as_fd().try_clone_to_owned().is_ok()
}

/// Returns whether stdout is open.
pub fn is_output_open<S: AsFd>(output: &S) -> bool {
    is_open(output)
}

/// Replacements of closed streams, for as long as this value lives.
#[derive(Drop)]
pub struct Fillers<F: Drop> {
    input: Option<F>,
    errors: Option<F>,
}

// Opens the null device if a stream is closed.
fn filler<R: Files, S: AsFd>(rt: &R, stream: &S) -> io::Result<Option<R::File>> {
    if is_open(stream) {
        return Ok(None);
    }
    let device = File::options().read(true).write(true).open(rt, NULL)?;
    Ok(Some(device))
}

/// Replaces stdin and stderr by the null device if they are closed. Stdout must be open, so that each file gets the
/// descriptor of the stream that it replaces.
pub fn fill_closed<R: Files, I: AsFd, E: AsFd>(
    rt: &R,
    input: &I,
    errors: &E,
) -> io::Result<Fillers<R::File>> {
    Ok(Fillers {
        input: filler(rt, input)?,
        errors: filler(rt, errors)?,
    })
}

// The plain file that a stream is, as far as the system tells it.
#[derive(Clone, Copy)]
enum Stream {
    File(FileId),
    // A terminal, a pipe or a device: no plain file.
    Other,
    // The system doesn't tell.
    Untold,
}

// Which file the stream with this descriptor is.
fn stream_of<R: Files, S: IsTerminal>(rt: &R, stream: &S, descriptor: &str) -> Stream {
    if stream.is_terminal() {
        return Stream::Other;
    }
    match fs::metadata(rt, descriptor) {
        Ok(metadata) => match FileId::of(&metadata) {
            Some(file) => Stream::File(file),
            None => Stream::Other,
        },
        Err(_) => Stream::Untold,
    }
}

// Returns whether a name may lead to the file that a stream is. A name that leads to no plain file doesn't.
fn may_lead_to<R: Files>(rt: &R, name: &str, stream: Stream) -> bool {
    let Some(file) = FileId::at(rt, name) else {
        return false;
    };
    match stream {
        Stream::File(own) => own == file,
        Stream::Other => false,
        Stream::Untold => true,
    }
}

// Returns whether a call may write the file that a stream is. The first names of `ports` are those of its ports.
fn may_write<R: Files>(rt: &R, outputs: Outputs, ports: &[&str], stream: Stream) -> bool {
    match outputs {
        Outputs::Nothing => false,
        Outputs::File(name) => may_lead_to(rt, name, stream),
        Outputs::Files(first, second) => {
            may_lead_to(rt, first, stream) || may_lead_to(rt, second, stream)
        }
        Outputs::Ports(count) => ports
            .iter()
            .take(count)
            .any(|port| may_lead_to(rt, port, stream)),
    }
}

/// Returns whether stdout or stderr may be a plain file that a call writes, or a file of one of its ports, which have the
/// first of these names. A line that is printed would spoil such a file.
pub fn may_spoil_files<R: Files, O: IsTerminal, E: IsTerminal>(
    rt: &R,
    outputs: Outputs,
    ports: &[&str],
    output: &O,
    errors: &E,
) -> bool {
    may_write(rt, outputs, ports, stream_of(rt, output, OUTPUT))
        || may_write(rt, outputs, ports, stream_of(rt, errors, ERRORS))
}
