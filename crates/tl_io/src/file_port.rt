//! A configuration port over a file.
ghost use Rattle.std.specs.Io.KnownBytes.{Appends};
ghost use Rattle.std.specs.Prelude.{◌≡◌, ◌-◌, ◌^◌, ◌≤◌, None, ℕ, OnOk};
ghost use Rattle.tl_io.specs.Counts.{count_of};
ghost use Rattle.tl_io.specs.Port.{PortSeen, new_port};
ghost use Rattle.tl_io.specs.PortLine.{port_line};

use crate::file_id::{FileId, emptied, opened};
use crate::inner_write::write_whole;
use crate::told_name::{NAME_ROOM, ToldName};
use crate::{ConfigPort, Failed, Write};
use itoa::Buffer;
use std::fs::OpenFile;
use std::marker::Model;
use std::rt::Files;

/// The files of the configuration ports of a program, in their order.
pub const PORT_FILES: &[&str] = &["port0.bits", "port1.bits", "port2.bits", "port3.bits"];

/// A port that writes each bit to a file as a line `ADDRESS=BIT`. Its clauses say nothing about the file.
#[derive(Drop)]
pub struct FilePort<R: Files + Drop> {
    rt: R,
    before: usize,
    name: ToldName,
    is_name_whole: bool,
    file: Option<R::File>,
    accepted: u64,
    faults: u64,
}

impl<R: Files + Drop> Model for FilePort<R> {
    ghost Value = { PortSeen };

    ghost view = { λ port. record { log = None; accepted = port.accepted; faults = port.faults } };
}

impl<R: Files + Drop> FilePort<R> {
    /// Creates a port over the file of this name. The first write creates the file. The name is copied; if it has more than
    /// 4,096 bytes, every write fails.
    pub fn make(rt: R, name: &'static str) -> FilePort<R>
        ensures { result ≡ new_port }
    {
        FilePort::beside(rt, name, 0)
    }

    /// Creates a port as `make` does. If its file is also that of one of the first `before` ports of `PORT_FILES`, by whatever
    /// name, every write fails.
    pub fn beside(rt: R, name: &'static str, before: usize) -> FilePort<R>
        ensures { result ≡ new_port }
    {
        let mut told = ToldName::new();
        told.set(name.as_bytes());
        FilePort {
            rt,
            before,
            name: told,
            is_name_whole: name.len() <= NAME_ROOM,
            file: None,
            accepted: 0,
            faults: 0,
        }
    }
}

// Creates the file of this name, or empties it, unless it is that of one of the first ports.
fn created<R: Files>(rt: &R, name: &[u8], before: usize) -> Result<R::File, Failed> {
    let Ok(name) = std::str::from_utf8(name) else {
        return Err(Failed);
    };
    let file = opened(rt, name)?;
    let Ok(metadata) = file.metadata() else {
        return Err(Failed);
    };
    if let Some(id) = FileId::of(&metadata) {
        if PORT_FILES
            .iter()
            .take(before)
            .any(|other| FileId::at(rt, other) == Some(id))
        {
            return Err(Failed);
        }
    }
    emptied(&file, &metadata)?;
    Ok(file)
}

// The length of the longest line: the 10 digits of an address, `=`, a bit and a line feed.
const LINE_ROOM: usize = 13;

// Writes the line of a bit from one buffer, so that it usually takes one system call.
fn write_line<W: std::io::Write>(writer: &mut W, address: u32, bit: bool) -> Result<(), Failed>
    ensures { OnOk result (Appends (W.contents writer.old) (W.contents writer.new) (port_line address bit)) }
{
    let mut buffer = Buffer::new();
    let digits = buffer.format(address).as_bytes();
    let count = digits.len();
    let mut line = [0; LINE_ROOM];
    line[..count].copy_from_slice(digits);
    line[count..count + 3].copy_from_slice(if bit { b"=1\n" } else { b"=0\n" });
    write_whole(writer, &line[..count + 3])
}

// Writes the line of a bit. Creates the file first if it was not created yet.
fn send<R: Files>(
    rt: &R,
    name: &[u8],
    before: usize,
    file: &mut Option<R::File>,
    address: u32,
    bit: bool,
) -> Result<(), Failed> {
    if file.is_none() {
        *file = Some(created(rt, name, before)?);
    }
    match file {
        Some(file) => write_line(file, address, bit),
        None => Err(Failed),
    }
}

impl<R: Files + Drop> ConfigPort for FilePort<R> {
    ghost port_seen = { λ port. record {
      log = None;
      accepted = count_of port.accepted;
      faults = count_of port.faults;
    } };

    fn write(&mut self, address: u32, bit: bool) -> Result<(), Failed> {
        if self.is_name_whole
            && send(
                &self.rt,
                self.name.bytes(),
                self.before,
                &mut self.file,
                address,
                bit,
            )
            .is_ok()
        {
            self.accepted = self.accepted.saturating_add(1);
            return Ok(());
        }
        self.faults = self.faults.saturating_add(1);
        Err(Failed)
    }

    fn logged(&self, _: usize) -> Option<Write> {
        None
    }

    fn faults(&self) -> u64 {
        self.faults
    }
}
