//! The time of a stage, and its line.
use std::io;
use std::time::{Duration, Instant};

/// Where lines are printed, and whether they have times.
#[derive(Clone, Copy)]
pub struct Meter<'a> {
    pub rt: &'a HostRuntime,
    pub timed: bool,
}

impl<'a> Meter<'a> {
    /// Begins a stage.
    pub fn start(&self) -> io::Result<Instant> {
        Instant::now(self.rt)
    }

    /// The time since a stage began.
    pub fn took(&self, start: Instant) -> io::Result<Duration> {
        start.elapsed(self.rt)
    }

    /// Prints the line of a stage: what it did, its result, and, if times are wanted, the microseconds that it took.
    pub fn show(&self, stage: &str, counts: &str, took: Duration) -> io::Result<()> {
        let rt = self.rt;
        if !self.timed {
            return println!(rt; "{stage}: {counts}");
        }
        let micros = u64::try_from(took.as_micros()).unwrap_or(u64::MAX);
        println!(rt; "{stage}: {counts}, {micros} us")
    }
}
