//! What a job has outside, and what it must leave.
use std::alloc::Global;

/// Which calls of an object fail.
#[derive(Drop)]
pub enum Calls {
    /// The calls with these numbers.
    These(Vec<u64>),
    /// One call at a time, from the first one on, until the job leaves what it must.
    InTurn,
}

/// A file and its bytes.
#[derive(Drop)]
pub struct SceneFile {
    pub name: String,
    pub bytes: Vec<u8>,
}

/// A port of a job: for how many writes it has room, and which of its calls fail.
#[derive(Drop)]
pub struct HandedIn {
    pub room: usize,
    pub fails: Vec<u64>,
}

/// What a job must leave: both outputs, the status, the changed files, and the lines of the ports. Without lines of
/// ports, the ports must be as before.
#[derive(Drop)]
pub struct Expected {
    pub out: Vec<u8>,
    pub err: Vec<u8>,
    pub status: u8,
    pub files: Vec<SceneFile>,
    pub ports: Vec<u8>,
}

/// A job: its arguments, further arguments that must give the same result, what it has outside, and what it must leave.
#[derive(Drop)]
pub struct PlayedJob {
    pub words: Vec<Vec<String>>,
    pub ports: Vec<HandedIn>,
    pub shelf: Calls,
    pub out: Calls,
    pub err: Calls,
    pub wanted: Expected,
}

impl PlayedJob {
    /// A job without arguments, of which no call fails and which must leave nothing.
    pub fn new(alloc: Global) -> PlayedJob {
        PlayedJob {
            words: Vec::new(alloc),
            ports: Vec::new(alloc),
            shelf: Calls::These(Vec::new(alloc)),
            out: Calls::These(Vec::new(alloc)),
            err: Calls::These(Vec::new(alloc)),
            wanted: Expected {
                out: Vec::new(alloc),
                err: Vec::new(alloc),
                status: 0,
                files: Vec::new(alloc),
                ports: Vec::new(alloc),
            },
        }
    }
}

/// The file with a name.
pub fn find<'a>(files: &'a [SceneFile], name: &str) -> Option<&'a SceneFile> {
    for file in files {
        if file.name.as_str() == name {
            return Some(file);
        }
    }
    None
}
