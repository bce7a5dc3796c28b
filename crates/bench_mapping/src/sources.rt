//! The sources of a graph: how many are parameters, and their shape.
ghost use Rattle.std.specs.Prelude.{◌≡◌, ℕ, ◌<◌, ◌≤◌, true, List, [], ◌∷◌, Some, length};
ghost use Rattle.aig_core.specs.Aig.{first_and, IsSource};
ghost use Rattle.bit_fun.specs.Parameters.{param_count as the_param_count};
ghost use Rattle.cover_pick.specs.Template.{TemplateValue};
ghost use Rattle.lut_sim.specs.declared.shape.Shape.{Shape as ShapeValue};
ghost use Rattle.lut_sim.specs.GraphShape.{HasShape, PlaysRoots};

use aig_core::{Graph, Kind};
use lut_sim::Shape;

// 1 if a source of this kind is a parameter, and otherwise 0.
fn params_of(kind: Kind) -> usize
    ensures value { result ≡ the_param_count (kind ∷ []) }
    ensures few { result ≤ 1 }
{
    match kind {
        Kind::Regular => 0,
        Kind::Parameter => 1,
    }
}

/// How many sources are parameters.
pub fn param_count(graph: &Graph) -> usize
    ensures { result ≡ the_param_count graph.now.kinds }
{
    let mut count = 0;
    for i in 0..graph.sources() {
        count += params_of(graph.kind(i + 1));
    }
    count
}

// Whether two kinds are equal.
fn is_kind(a: Kind, b: Kind) -> bool
    ensures { result ≡ true → a ≡ b }
{
    match (a, b) {
        (Kind::Regular, Kind::Regular) => true,
        (Kind::Parameter, Kind::Parameter) => true,
        _ => false,
    }
}

// Whether all sources between two places are of a kind.
fn are_of_kind(graph: &Graph, start: u32, end: u32, kind: Kind) -> bool
    requires above { 1 ≤ start }
    requires below { end ≤ first_and graph.now }
    ensures { result ≡ true → (n : ℕ) → start ≤ n → n < end → IsSource graph.now kind n }
{
    for n in start..end {
        if !is_kind(graph.kind(n), kind) {
            return false;
        }
    }
    true
}

// Whether the sources are the regular inputs, then the parameters, then the latches of a shape.
fn has_shape(graph: &Graph, shape: Shape) -> bool
    ensures { result ≡ true → HasShape graph.now shape }
{
    let inputs = u64::from(shape.regular);
    let others = u64::from(shape.params) + u64::from(shape.latches);
    if inputs + others != u64::from(graph.sources()) {
        return false;
    }
    let params = shape.regular + 1;
    let latches = params + shape.params;
    if !are_of_kind(graph, 1, params, Kind::Regular) {
        return false;
    }
    if !are_of_kind(graph, params, latches, Kind::Parameter) {
        return false;
    }
    are_of_kind(graph, latches, graph.sources() + 1, Kind::Regular)
}

/// The shape of a graph whose last sources are this many latches, after this many parameters; otherwise `None`.
pub fn shape_of(graph: &Graph, params: u32, latches: u32) -> Option<Shape>
    // A template of the graph can be played.
    ensures playable { (shape : ShapeValue) (k : ℕ) (roots : List ℕ) (t : TemplateValue) → result ≡ Some shape → PlaysRoots graph.now k roots latches t shape }
    ensures latches { (shape : ShapeValue) → result ≡ Some shape → shape.latches ≡ latches }
{
    let regular = graph.sources().checked_sub(params)?.checked_sub(latches)?;
    let shape = Shape::new(regular, params, latches);
    if !has_shape(graph, shape) {
        return None;
    }
    Some(shape)
}
