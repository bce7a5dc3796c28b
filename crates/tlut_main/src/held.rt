//! What a call waits for before it is done: its files are on their device, and nothing is left in the output's buffer.
ghost use Rattle.std.specs.Prelude.{◌≡◌, ◌⊎◌, [], false, IfOk, IsOk, if◌then◌else◌};
ghost use Rattle.std.specs.Io.Buffered.{writer_buffer, writer_capacity};
ghost use Rattle.tl_io.specs.Causes.{Rose};
ghost use Rattle.tl_io.specs.DiskValue.{all_synced, shelf_on_disk};
ghost use Rattle.tl_io.specs.Written.{AreSynced};
ghost use Rattle.tlut_main.specs.Ends.{IsLate, IsLeft};

use std::alloc::{AllocError, Global};
use std::io;
use std::io::{BufWriter, Write};
use std::rt::Files;
use tl_io::{DiskShelf, Sink};
use tlut_cli::{Outcome, Status, report};

// The size of the output buffer, in bytes.
const ROOM: usize = 65_536;

/// A writer with a buffer of 64 KiB, or with none if nothing is to wait. `Err` only if memory for the buffer runs out.
pub fn hold<W: Write + Drop>(alloc: Global, output: W, waits: bool) -> io::Result<BufWriter<W>>
    ensures empty { IfOk result (λ held. writer_buffer held ≡ []) }
    ensures room { IfOk result (λ held. writer_capacity held ≡ (if waits then ROOM else 0)) }
    ensures succeeds { waits ≡ false → IsOk result }
{
    BufWriter::with_capacity(alloc, if waits { ROOM } else { 0 }, output)
}

// Flushes the buffer. If that fails, a call that was done ends with a write fault instead. So if a call is done, nothing is
// left in the buffer.
fn let_go<W: Write + Drop, E: Sink>(held: &mut BufWriter<W>, status: Status, err: &mut E) -> Status
    ensures whole { result ≡ Status.Done → writer_buffer held.new ≡ [] }
    ensures kept { ((result ≡ status) × (E.seen err.new ≡ E.seen err.old)) ⊎ IsLate status (E.seen err.old) (E.seen err.new) result }
{
    if held.flush().is_ok() || status != Status::Done {
        return status;
    }
    report(err, b"", &Outcome::WriteFault);
    Status::WriteFault
}

// Waits until the devices have the files that a call wrote. If a device refuses bytes, a call that was done ends with a write
// fault instead. So if a call is done, its files have had no fault, and the devices have all bytes of each one.
fn settle<R: Files + Drop, E: Sink>(shelf: &mut DiskShelf<R>, status: Status, err: &mut E) -> Status
    ensures whole { result ≡ Status.Done → shelf.new ≡ all_synced shelf.old }
    ensures kept { ((result ≡ status) × (E.seen err.new ≡ E.seen err.old)) ⊎ IsLate status (E.seen err.old) (E.seen err.new) result }
    ensures shelf { result ≡ status → IsLeft (shelf_on_disk shelf.old) (shelf_on_disk shelf.new) }
    ensures cause { ¬ (result ≡ status) → Rose (shelf_on_disk shelf.old).write_faults (shelf_on_disk shelf.new).write_faults }
{
    if status != Status::Done || shelf.settle().is_ok() {
        return status;
    }
    report(err, b"", &Outcome::WriteFault);
    Status::WriteFault
}

/// Ends a call: waits until the devices have its files, and flushes its output. If either fails, a call that was done ends with
/// a write fault instead.
pub fn finish<R: Files + Drop, W: Write + Drop, E: Sink>(
    shelf: &mut DiskShelf<R>,
    held: &mut BufWriter<W>,
    status: Status,
    err: &mut E,
) -> Status
    ensures synced { result ≡ Status.Done → AreSynced shelf.new.syncs }
    ensures whole { result ≡ Status.Done → writer_buffer held.new ≡ [] }
    ensures kept { ((result ≡ status) × (E.seen err.new ≡ E.seen err.old)) ⊎ IsLate status (E.seen err.old) (E.seen err.new) result }
    ensures shelf { result ≡ status → IsLeft (shelf_on_disk shelf.old) (shelf_on_disk shelf.new) }
{
    let settled = settle(shelf, status, err);
    let_go(held, settled, err)
}
