//! Runs a job over objects in memory.
use crate::scene::{HandedIn, PlayedJob, SceneFile, find};
use crate::stop::PlayStop;
use std::alloc::{AllocError, Global};
use tl_io::{ConfigPort, MemPort, MemShelf, MemSink};

// The most bytes per read, the room beyond the expected bytes, and the most writes of a port that are shown.
const PIECE: usize = 7;

const ROOM: usize = 10_000;

const TOLD_WRITES: usize = 1_000;

/// A program over objects in memory.
pub trait Program {
    /// Runs a job, and returns its exit status.
    fn run(
        &self,
        alloc: Global,
        words: &[String],
        shelf: &mut MemShelf,
        out: &mut MemSink,
        err: &mut MemSink,
        ports: &mut Vec<Box<dyn ConfigPort>>,
    ) -> u8;
}

/// Which calls of the shelf and of both outputs fail.
#[derive(Clone, Copy)]
pub struct FailingCalls<'a> {
    pub shelf: &'a [u64],
    pub out: &'a [u64],
    pub err: &'a [u64],
}

/// What a job left.
#[derive(Drop)]
pub struct PlayedCall {
    pub status: u8,
    pub out: MemSink,
    pub err: MemSink,
    /// A line for each port, in their present order: its number in the order of before, its writes, and its
    /// faults if there are any.
    pub ports: String,
    pub files: Vec<SceneFile>,
}

// Puts the files on a shelf, each with room for what it must have after the job.
fn shelf_of(
    alloc: Global,
    files: &[SceneFile],
    job: &PlayedJob,
    fails: &[u64],
) -> Result<MemShelf, AllocError> {
    let mut shelf = MemShelf::make(alloc, PIECE, fails)?;
    for file in files {
        let wanted = match find(job.wanted.files.as_slice(), file.name.as_str()) {
            Some(wanted) => wanted.bytes.len(),
            None => 0,
        };
        let room = wanted.saturating_add(ROOM);
        shelf.add(file.name.as_str(), file.bytes.as_slice(), room)?;
    }
    Ok(shelf)
}

// A port whose log begins with its number, so that the port is recognised wherever the job leaves it.
fn numbered(alloc: Global, number: u32, port: &HandedIn) -> Result<MemPort, AllocError> {
    let mut fails = Vec::new(alloc);
    for call in &port.fails {
        fails.push(call.saturating_add(1))?;
    }
    let mut made = MemPort::make(alloc, port.room.saturating_add(1), &fails)?;
    let _ = made.write(number, true);
    Ok(made)
}

// The line of a port.
fn put_port<P: ConfigPort>(text: &mut String, port: &P) -> Result<(), AllocError> {
    if let Some(first) = port.logged(0) {
        let number = first.address;
        write!(text, "{number}:")?;
    }
    for i in 1..TOLD_WRITES {
        let Some(write) = port.logged(i) else {
            break;
        };
        let address = write.address;
        let bit = u8::from(write.bit);
        write!(text, " {address}={bit}")?;
    }
    match port.faults() {
        0 => text.push_str("\n"),
        1 => text.push_str(" (1 fault)\n"),
        faults => write!(text, " ({faults} faults)\n"),
    }
}

// The lines of the ports in their order.
fn told<P: ConfigPort>(alloc: Global, ports: &[P]) -> Result<String, AllocError> {
    let mut text = String::new(alloc);
    for port in ports {
        put_port(&mut text, port)?;
    }
    Ok(text)
}

// The files after a job.
fn files_of(
    alloc: Global,
    shelf: &MemShelf,
    before: &[SceneFile],
) -> Result<Vec<SceneFile>, AllocError> {
    let mut files = Vec::new(alloc);
    for file in before {
        let name = file.name.as_str();
        let bytes = shelf.file(name).unwrap_or(&[]);
        files.push(SceneFile {
            name: String::from_str(alloc, name)?,
            bytes: Vec::from_slice(alloc, bytes)?,
        })?;
    }
    Ok(files)
}

/// The lines of ports that took no write.
pub fn untouched(alloc: Global, ports: usize) -> Result<String, AllocError> {
    let mut text = String::new(alloc);
    for number in 0..ports {
        write!(text, "{number}:\n")?;
    }
    Ok(text)
}

// The files and the outputs of a job.
#[derive(Drop)]
struct World {
    shelf: MemShelf,
    out: MemSink,
    err: MemSink,
}

// An output with room for more than the expected bytes.
fn sink_of(alloc: Global, wanted: &[u8], fails: &[u64]) -> Result<MemSink, AllocError> {
    MemSink::make(alloc, wanted.len().saturating_add(ROOM), fails)
}

fn world_of(
    alloc: Global,
    files: &[SceneFile],
    job: &PlayedJob,
    fails: &FailingCalls,
) -> Result<World, AllocError> {
    let shelf = shelf_of(alloc, files, job, fails.shelf)?;
    let out = sink_of(alloc, job.wanted.out.as_slice(), fails.out)?;
    let err = sink_of(alloc, job.wanted.err.as_slice(), fails.err)?;
    Ok(World { shelf, out, err })
}

// What is outside after a job.
fn left(
    alloc: Global,
    files: &[SceneFile],
    status: u8,
    world: World,
    ports: String,
) -> Result<PlayedCall, AllocError> {
    let files = files_of(alloc, &world.shelf, files)?;
    Ok(PlayedCall {
        status,
        out: world.out,
        err: world.err,
        ports,
        files,
    })
}

/// Runs a job on files.
pub fn run<P: Program>(
    alloc: Global,
    program: &P,
    files: &[SceneFile],
    job: &PlayedJob,
    words: &[String],
    fails: &FailingCalls,
) -> Result<PlayedCall, PlayStop> {
    let mut ports: Vec<Box<dyn ConfigPort>> = Vec::new(alloc);
    for (number, port) in (0..u32::MAX).zip(&job.ports) {
        let made = numbered(alloc, number, port)?;
        ports.push(Box::new(alloc, made)?)?;
    }
    let mut world = world_of(alloc, files, job, fails)?;
    let status = program.run(
        alloc,
        words,
        &mut world.shelf,
        &mut world.out,
        &mut world.err,
        &mut ports,
    );
    let ports = told(alloc, &ports)?;
    Ok(left(alloc, files, status, world, ports)?)
}
