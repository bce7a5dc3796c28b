//! The weights of models, each capped at 2^22 + 1.
ghost use Rattle.std.specs.Prelude.{◌≡◌, ℕ, ◌+◌, ◌<◌, ◌≤◌, length, Some, slice_get, set, IfOk, MatchResult};
ghost use Rattle.blif_flat.specs.{In, OrMemory, ModelValue, TooLarge, HasWeight, AreChildrenFirst, IsKeptWeight};
ghost use Rattle.blif_flat.specs.{most_weight, body_weight, commands_weight, own_weight, refusal_of, model_names, capped, body_kept, commands_kept, model_kept};

use crate::flat_err::FlatErr;
use crate::model::ports::ModelIndex;
use netlist::{BlifModel, Body, Command, Library};
use std::alloc::{AllocError, Global};

// The greatest weight that is flattened, 2^22.
const MOST_WEIGHT: u32 = 4_194_304;

// A sum, capped.
fn add_up(total: u32, more: usize) -> u32
    requires { total ≤ most_weight + 1 }
    ensures { result ≡ capped (total + more) }
{
    let room = MOST_WEIGHT + 1 - total;
    if more >= room as usize {
        MOST_WEIGHT + 1
    } else {
        total + more as u32
    }
}

fn body_weight(body: &Body) -> usize
    ensures { result ≡ body_weight body.now }
{
    match body {
        Body::Cover(cover) => cover.inputs.len() + 1,
        Body::Latch(latch) => { if latch.control.is_some() { 3 } else { 2 } }
        Body::Subckt(subckt) => subckt.pairs.len(),
    }
}

fn commands_weight(commands: &[Command]) -> u32
    ensures { result ≡ capped (commands_weight commands.now) }
{
    let mut total = 0;
    for command in commands {
        total = add_up(total, body_weight(&command.body));
    }
    total
}

// The weight of what a model holds, in time linear in its commands.
fn own_weight(model: &BlifModel) -> u32
    ensures { result ≡ capped (own_weight model.now) }
{
    let inputs = add_up(1, model.inputs.len());
    let outputs = add_up(inputs, model.outputs.len());
    let ports = add_up(outputs, model.clocks.len());
    let commands = commands_weight(&model.commands);
    add_up(ports, commands as usize)
}

// What is kept of the model that a command places.
fn body_kept(index: &ModelIndex, weights: &[u32], body: &Body) -> u32
    ensures { result ≡ body_kept index.now.names weights.now body.now }
{
    match body {
        Body::Cover(_) => 0,
        Body::Latch(_) => 0,
        Body::Subckt(subckt) => match index.find(subckt.model.bytes()) {
            None => 0,
            Some(number) => match weights.get(number as usize) {
                None => 0,
                Some(&weight) => weight,
            },
        },
    }
}

fn commands_kept(index: &ModelIndex, weights: &[u32], commands: &[Command]) -> u32
    ensures { result ≡ capped (commands_kept index.now.names weights.now commands.now) }
{
    let mut total = 0;
    for command in commands {
        let kept = body_kept(index, weights, &command.body);
        total = add_up(total, kept as usize);
    }
    total
}

fn model_kept(index: &ModelIndex, weights: &[u32], model: &BlifModel) -> u32
    ensures { result ≡ model_kept index.now.names weights.now model.now }
{
    let own = own_weight(model);
    let inner = commands_kept(index, weights, &model.commands);
    add_up(own, inner as usize)
}

// Keeps the weight of a model by its number.
fn keep_weight(library: &Library, index: &ModelIndex, weights: &mut Vec<u32>, number: u32)
    requires model { number < length library.now.models }
    requires room { number < length weights.old.items }
    ensures { (m : ModelValue) → slice_get library.now.models number ≡ Some m
        → weights.new.items ≡ set weights.old.items number (model_kept index.now.names weights.old.items m) }
{
    let model: &BlifModel = &library.models[number as usize];
    let kept = model_kept(index, weights, model);
    weights[number as usize] = kept;
}

/// The capped weights of the models of an order, by their numbers. A weight is capped at 2^22 + 1, so that the result shows which
/// ones exceed 2^22. The index belongs to the library. The order consists of model numbers; each model comes after the models
/// that it contains. `Err` only if memory runs out. The time is linear in the models of the order and in the number of all
/// models, on average over the hashes.
pub(crate) fn weigh(
    alloc: Global,
    library: &Library,
    index: &ModelIndex,
    order: &[u32],
) -> Result<Vec<u32>, AllocError>
    requires names { index.now.names ≡ model_names library.now.models }
    requires order { AreChildrenFirst library.now order.now }
    ensures kept { IfOk result (λ weights. (n : ℕ) → In order.now n → IsKeptWeight library.now weights.items n) }
    ensures len { IfOk result (λ weights. length weights.items ≡ length library.now.models) }
{
    let mut weights = vec![in alloc; 0; library.models.len()]?;
    for &number in order {
        keep_weight(library, index, &mut weights, number);
    }
    Ok(weights)
}

fn check_kept(kept: u32) -> Result<(), FlatErr>
    ensures { MatchResult result (λ _. kept ≤ most_weight) (λ e. (e ≡ TooLarge) × (most_weight < kept)) }
{
    if kept > MOST_WEIGHT {
        return Err(FlatErr::TooLarge);
    }
    Ok(())
}

/// Reports a main model that is heavier than 2^22. The order consists of model numbers and contains the main model; each model
/// comes after the models that it contains. `Err` is `TooLarge` or `Memory`. It takes the time of `weigh`.
pub(crate) fn check_weight(
    alloc: Global,
    library: &Library,
    index: &ModelIndex,
    order: &[u32],
) -> Result<(), FlatErr>
    requires names { index.now.names ≡ model_names library.now.models }
    requires order { AreChildrenFirst library.now order.now }
    requires main { In order.now 0 }
    ensures { (main : ModelValue) → slice_get library.now.models 0 ≡ Some main
        → MatchResult result (λ _. HasWeight library.now main (λ w. w ≤ most_weight))
        (OrMemory refusal_of (λ r. (r ≡ TooLarge) × HasWeight library.now main (λ w. most_weight < w))) }
{
    let weights = weigh(alloc, library, index, order)?;
    match weights.first() {
        None => Ok(()),
        Some(&kept) => check_kept(kept),
    }
}
