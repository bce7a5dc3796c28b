//! Calls about texts that no command makes: a script at a limited rate, and a pack's file in version 1.
ghost use Rattle.std.specs.Prelude.{◌≡◌, ◌≤◌, ◌∷◌, [], length, IfOk, codes};
ghost use Rattle.tl_text.specs.Once.{AreOnce};
ghost use Rattle.run_text.specs.declared.event.Forms.TheVariants.{Pace};

use crate::stop::StageStop;
use pace_core::{PaceEvent, read_pace};
use ppc_file::{decode, encode_one};
use run_text::{Forms, ScriptErr, ScriptNames};
use std::alloc::{AllocError, Global};
use tl_io::MemSink;
use tl_text::Name;

// The names p and q.
fn params(alloc: Global) -> Result<Vec<Name>, AllocError>
    ensures { IfOk result (λ names. names.items ≡ codes "p" ∷ codes "q" ∷ []) }
{
    Ok(vec![in alloc; Name::make(alloc, b"p")?, Name::make(alloc, b"q")?]?)
}

// What a script over the parameters p and q and two regular inputs may name.
fn names(alloc: Global) -> Result<ScriptNames, AllocError>
    ensures forms { IfOk result (λ names. names.forms ≡ Pace) }
    ensures params { IfOk result (λ names. names.params ≡ codes "p" ∷ codes "q" ∷ []) }
{
    Ok(ScriptNames {
        forms: Forms::Pace,
        params: params(alloc)?,
        width: Some(2),
        bits: 4,
    })
}

// Prints an event.
fn list_event(rt: &HostRuntime, event: &PaceEvent) -> Result<(), StageStop> {
    match event {
        PaceEvent::Ask(assigns) => {
            for assign in assigns {
                let (param, bit) = (assign.param, assign.bit);
                println!(rt; "  ask {param} {bit}")?;
            }
        }
        PaceEvent::Tick(values) => println!(rt; "  tick {values:?}")?,
    }
    Ok(())
}

/// Prints the events of a script at a limited rate, and the refusal of another one.
pub fn list_events(rt: &HostRuntime) -> Result<(), StageStop> {
    println!(rt; "events at a limited rate")?;
    let names = names(rt.alloc())?;
    match read_pace(rt.alloc(), b"tick 10\nask q=1 p=0\n\ntick 01\n", &names) {
        Ok(events) => {
            for event in &events {
                list_event(rt, event)?;
            }
        }
        Err(ScriptErr::Memory) => return Err(StageStop::Memory),
        Err(_) => return Err(StageStop::Refused),
    }
    match read_pace(rt.alloc(), b"tick 10\nset p=1\n", &names) {
        Err(ScriptErr::Malformed(line)) => println!(rt; "  malformed line {line}")?,
        Err(ScriptErr::Memory) => return Err(StageStop::Memory),
        _ => return Err(StageStop::Refused),
    }
    Ok(())
}

// The parameters p and q at 0, their product, and it as the one bit: in version 1, and in version 2.
const ONE: [u8; 36] = [
    0x54, 0x50, 0x50, 0x43, 0, 1, 0, 2, 0, 1, 0x70, 0, 0, 1, 0x71, 0, 0, 0, 0, 1, 0, 0, 0, 2, 0, 0,
    0, 4, 0, 0, 0, 1, 0, 0, 0, 6,
];

const TWO: [u8; 18] = [
    0x54, 0x50, 0x50, 0x43, 0, 2, 2, 1, 0x70, 0, 1, 0x71, 0, 1, 2, 2, 1, 6,
];

// Returns whether a pack with these bytes has the file `ONE` in version 1.
fn is_written_as_one(alloc: Global, bytes: &[u8]) -> Result<bool, StageStop>
    requires { length bytes.now ≤ 36 }
{
    let Ok(pack) = decode(alloc, bytes) else {
        return Err(StageStop::Refused);
    };
    let mut sink = MemSink::make(alloc, 64, &[])?;
    if encode_one(&pack, &mut sink).is_err() {
        return Err(StageStop::Refused);
    }
    Ok(sink.bytes() == ONE.as_slice())
}

/// Prints whether a pack of each version is written in version 1 as it must be.
pub fn list_packs(rt: &HostRuntime) -> Result<(), StageStop> {
    let one = is_written_as_one(rt.alloc(), &ONE)?;
    let two = is_written_as_one(rt.alloc(), &TWO)?;
    println!(rt; "packs in version 1: {one} {two}")?;
    Ok(())
}
