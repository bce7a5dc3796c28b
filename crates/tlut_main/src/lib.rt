//! The main of both programs: the top call over the system's files, streams and arguments.
//!
//! - `streams.rt` checks the standard streams before any file is opened: whether they are closed, and whether stdout or stderr
//!   is a file that the command writes.
//! - `held.rt` buffers the output and flushes it, and waits until the device has the files.
//!
//! A call that is done has synced each file that it began: `run` and the functions below it say so by the shelf's counts.
#![tactic(auto)]

mod held;
mod streams;

ghost use Rattle.std.specs.Prelude.{◌≡◌, [], drop, map, string_bytes, IfOk, IfErr, OnErr};
ghost use Rattle.std.specs.Vec.Iter.{into_iter_items};
ghost use Rattle.std.specs.Io.Buffered.{writer_buffer};
ghost use Rattle.std.specs.IoError.{error_kind};
ghost use Rattle.std.specs.Process.{exit_status};
ghost use Rattle.std.specs.declared.io.ErrorKind.TheVariants.{OutOfMemory};
ghost use Rattle.cmd_base.specs.FaultLine.{Reports};
ghost use Rattle.cmd_base.specs.Statuses.{code_of, status_of};
ghost use Rattle.tl_io.specs.DiskValue.{shelf_on_disk};
ghost use Rattle.tl_io.specs.Written.{AreSynced};
ghost use Rattle.tlut_cli.specs.Commands.{line_of};
ghost use Rattle.tlut_main.specs.Ends.{HasEnded};

use crate::held::{finish, hold};
use crate::streams::{fill_closed, is_output_open, may_spoil_files};
use std::alloc::{AllocError, Global};
use std::env::Args;
use std::io::{BufWriter, ErrorKind, IsTerminal, Write};
use std::process::ExitCode;
use std::{env, io};
use tl_io::{ConfigPort, DiskShelf, FilePort, PORT_FILES, Sink, StdSink};
use tlut_cli::{Outcome, Outputs, Rule, Status, outputs_of, report, tlut, tlut_by};

// The arguments after the program's name.
fn words(alloc: Global, args: Args) -> Result<Vec<String>, AllocError>
    ensures { IfOk result (λ words. words.items ≡ drop 1 (into_iter_items args)) }
{
    let mut words = Vec::new(alloc);
    for word in args.skip(1) {
        words.push(word)?;
    }
    Ok(words)
}

// Returns whether a call uses no ports. The writes of a call with ports come between its lines.
fn is_portless(outputs: Outputs) -> bool {
    match outputs {
        Outputs::Ports(count) => count == 0,
        _ => true,
    }
}

// Ends a call with a fault that the top call doesn't know of.
fn fail<E: Sink>(err: &mut E, outcome: &Outcome) -> Status
    ensures status { result ≡ status_of outcome.now }
    ensures line { Reports (E.seen err.old) (E.seen err.new) (line_of [] outcome.now) }
{
    report(err, b"", outcome);
    outcome.status()
}

// What to run: the arguments, and the rule that chooses cuts.
#[derive(Clone, Copy)]
struct Call<'a> {
    rule: Rule,
    words: &'a [String],
}

// Why a call has no output.
#[derive(Clone, Copy, Debug, thiserror::Error)]
enum NoOutput {
    #[error("stdout or stderr is a file that the call writes")]
    Spoils,
    #[error("out of memory")]
    Memory,
}

// The output of a call. It waits in a buffer, unless stdout is a terminal or ports serve.
fn output_of<W: Write + IsTerminal + Drop>(
    rt: HostRuntime,
    call: Call,
    stdout: W,
) -> Result<BufWriter<W>, NoOutput>
    ensures { IfOk result (λ output. writer_buffer output ≡ []) }
{
    let outputs = outputs_of(call.rule, PORT_FILES.len(), call.words);
    if may_spoil_files(&rt, outputs, PORT_FILES, &stdout, &rt.stderr()) {
        return Err(NoOutput::Spoils);
    }
    let waits = !stdout.is_terminal() && is_portless(outputs);
    match hold(rt.alloc(), stdout, waits) {
        Ok(output) => Ok(output),
        Err(_) => Err(NoOutput::Memory),
    }
}

// Makes the ports, and runs the top call over them, the files and stdout. No port has the file of one before it. If there is
// no memory for the ports, the call ends with that status and writes no line.
fn run_with_ports<E: Sink>(
    rt: HostRuntime,
    call: Call,
    shelf: &mut DiskShelf<HostRuntime>,
    err: &mut E,
) -> Status
    ensures synced { result ≡ Status.Done → AreSynced shelf.new.syncs }
    ensures ended { HasEnded call.entry.rule (map string_bytes call.entry.words.now) (shelf_on_disk shelf.old) (shelf_on_disk shelf.new) (E.seen err.old) (E.seen err.new) result }
{
    let alloc = rt.alloc();
    let mut ports: Vec<Box<dyn ConfigPort>> = Vec::new(alloc);
    for (before, name) in PORT_FILES.iter().enumerate() {
        let Ok(port) = Box::new(alloc, FilePort::beside(rt, name, before)) else {
            return Status::Memory;
        };
        if ports.push(port).is_err() {
            return Status::Memory;
        }
    }
    let (words, rule) = (call.words, call.rule);
    let mut output = match output_of(rt, call, rt.stdout()) {
        Ok(output) => output,
        Err(NoOutput::Spoils) => return fail(err, &Outcome::WriteFault),
        Err(NoOutput::Memory) => return fail(err, &Outcome::Memory),
    };
    let mut out = StdSink::make(&mut output);
    let status = match rule {
        Rule::FewestLeaves => tlut(alloc, words, shelf, &mut out, err, &mut ports),
        Rule::LeastCost => tlut_by(alloc, rule, words, shelf, &mut out, err, &mut ports),
    };
    finish(shelf, &mut output, status, err)
}

// Runs a command, if stdout is open. If it is done, the devices have all bytes of each file that the shelf began.
fn run<E: Sink>(
    rt: HostRuntime,
    call: Call,
    shelf: &mut DiskShelf<HostRuntime>,
    err: &mut E,
) -> Status
    ensures synced { result ≡ Status.Done → AreSynced shelf.new.syncs }
    ensures ended { HasEnded call.entry.rule (map string_bytes call.entry.words.now) (shelf_on_disk shelf.old) (shelf_on_disk shelf.new) (E.seen err.old) (E.seen err.new) result }
{
    if !is_output_open(&rt.stdout()) {
        return fail(err, &Outcome::WriteFault);
    }
    match fill_closed(&rt, &rt.stdin(), &rt.stderr()) {
        Ok(_fillers) => run_with_ports(rt, call, shelf, err),
        Err(_) => fail(err, &Outcome::WriteFault),
    }
}

// Runs the command that these arguments of the system give. If the system has no memory for them or refuses them, or there is
// no memory for a list of them, the call ends with that status and writes no line.
fn run_given<E: Sink>(
    rt: HostRuntime,
    rule: Rule,
    given: io::Result<Args>,
    shelf: &mut DiskShelf<HostRuntime>,
    err: &mut E,
) -> Status
    ensures synced { result ≡ Status.Done → AreSynced shelf.new.syncs }
    ensures ended { IfOk given (λ args. HasEnded rule (map string_bytes (drop 1 (into_iter_items args))) (shelf_on_disk shelf.old) (shelf_on_disk shelf.new) (E.seen err.old) (E.seen err.new) result) }
    ensures memory { IfErr given (λ e. error_kind e ≡ OutOfMemory → result ≡ Status.Memory) }
    ensures refused { IfErr given (λ e. ¬ (error_kind e ≡ OutOfMemory) → result ≡ Status.Usage) }
    ensures silent { OnErr given (E.seen err.new ≡ E.seen err.old) }
    ensures untouched { OnErr given (shelf.new ≡ shelf.old) }
{
    match given {
        Ok(args) => match words(rt.alloc(), args) {
            Ok(words) => {
                let call = Call {
                    rule,
                    words: &words,
                };
                run(rt, call, shelf, err)
            }
            Err(_) => Status::Memory,
        },
        Err(error) if error.kind() == ErrorKind::OutOfMemory => Status::Memory,
        Err(_) => Status::Usage,
    }
}

// The exit status as the system takes it.
fn exit_with(status: Status) -> ExitCode
    ensures { exit_status result ≡ code_of status }
{
    ExitCode::from(status.code())
}

/// Runs the command given by the program's arguments, with the rule that chooses cuts. Returns the exit status of the call.
///
/// If the system has no memory for the arguments or the ports, or refuses an argument, as one that isn't UTF-8, the call ends
/// without a line. If stdout is closed, or if stdout or stderr is a file that the command writes, the call ends with a write
/// fault before any file is opened. If the system doesn't tell which file a stream is, a plain file that the command would
/// overwrite counts as this file. If stdin or stderr is closed, it is replaced by the null device, so that no file gets its
/// descriptor. If stdout is no terminal and no port serves, up to 64 KiB of output are buffered. If flushing fails, or a device
/// refuses a file late, the call ends with a write fault too.
pub fn main_by(rt: HostRuntime, rule: Rule) -> ExitCode {
    let given = env::args(&rt);
    let mut shelf = DiskShelf::make(rt);
    let mut err = StdSink::make(rt.stderr());
    exit_with(run_given(rt, rule, given, &mut shelf, &mut err))
}
