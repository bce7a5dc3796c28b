//! Many changes of a long chain of ANDs, each of which touches one node.
ghost use Rattle.std.specs.Prelude.{◌≡◌, ◌<◌, length};

use crate::stop::StageStop;
use aig_core::Steps;
use itoa::Buffer;
use ppc_file::decode;
use ppc_pack::MOST_PACK_BYTES;
use spec_core::Specialiser;
use std::alloc::AllocError;
use std::marker::Brand;
use std::sync::ledger::{Blank, Ledger};
use tl_io::Assign;

// The AND nodes of the chain, and its parameters. Each node is the product of the node before it and the next parameter.
const NODES: u32 = 60_000;

const PARAMS: u32 = NODES + 1;

const CHANGES: u32 = 4_000_000;

// Appends a number of four bytes, the highest first.
fn put(bytes: &mut Vec<u8>, number: u32) -> Result<(), AllocError> {
    bytes.extend_from_slice(&number.to_be_bytes())
}

// Appends the parameters `p0`, `p1` and so on, all 0.
fn put_params(bytes: &mut Vec<u8>) -> Result<(), AllocError> {
    let mut buffer = Buffer::new();
    for number in 0..PARAMS {
        let digits = buffer.format(number).as_bytes();
        bytes.extend_from_slice(&[0, digits.len() as u8 + 1, b'p'])?;
        bytes.extend_from_slice(digits)?;
        bytes.push(0)?;
    }
    Ok(())
}

// Appends the fan-ins of the nodes after the first.
fn put_nodes(bytes: &mut Vec<u8>) -> Result<(), AllocError> {
    for number in 1..NODES {
        put(bytes, 2 * (number + 2))?;
        put(bytes, 2 * (PARAMS + number))?;
    }
    Ok(())
}

// The pack of the chain as a file of version 1. Its one bit is the last node.
fn chain(rt: &HostRuntime) -> Result<Vec<u8>, AllocError> {
    let mut bytes = Vec::new(rt.alloc());
    bytes.extend_from_slice(b"TPPC\x00\x01")?;
    bytes.extend_from_slice(&(PARAMS as u16).to_be_bytes())?;
    put_params(&mut bytes)?;
    put(&mut bytes, NODES)?;
    put(&mut bytes, 2)?;
    put(&mut bytes, 4)?;
    put_nodes(&mut bytes)?;
    put(&mut bytes, 1)?;
    put(&mut bytes, 2 * (PARAMS + NODES))?;
    Ok(bytes)
}

// The chain's specialiser.
fn specialiser(rt: &HostRuntime) -> Result<Specialiser, StageStop> {
    let bytes = chain(rt)?;
    if bytes.len() > MOST_PACK_BYTES {
        return Err(StageStop::Refused);
    }
    match decode(rt.alloc(), &bytes) {
        Ok(pack) => Ok(Specialiser::make(rt.alloc(), pack)?),
        Err(_) => Err(StageStop::Refused),
    }
}

// Gives a parameter a value, with a counter of its own.
fn set<L: Ledger>(specialiser: &mut Specialiser, param: u16, bit: bool, blank: Blank)
    requires name { blank.name ≡ L.name }
    requires parts { blank.parts ≡ L.parts }
    requires some { 0 < L.parts }
    requires param { param < length specialiser.old.state.params }
{
    let mut steps = Steps::<L>::start(blank);
    specialiser.change(&[Assign { param, bit }], &mut steps);
}

// Changes the last parameter again and again, and returns the number of writes.
fn play(specialiser: &mut Specialiser) -> Result<u64, StageStop> {
    let last = NODES as u16;
    let mut writes = 0u64;
    for change in 0..CHANGES {
        if last as usize >= specialiser.values().len() {
            return Err(StageStop::Refused);
        }
        set::<Brand>(specialiser, last, change % 2 == 0, Blank::new(1));
        writes = writes.saturating_add(specialiser.writes().len() as u64);
    }
    Ok(writes)
}

/// Changes the chain's last parameter 4,000,000 times. Prints the number of writes, how many parameters are 1 then, and the
/// configuration.
pub fn play_changes(rt: &HostRuntime) -> Result<(), StageStop> {
    let mut specialiser = specialiser(rt)?;
    let writes = play(&mut specialiser)?;
    let ones = specialiser.values().iter().filter(|bit| **bit).count();
    let image = specialiser.image();
    println!(rt; "changes: {CHANGES}, {writes} writes, {ones} parameters are 1, image {image:?}")?;
    Ok(())
}
