//! The cuts of one size that a node has so far, in order.
//!
//! A cut is never moved. The order is a vector of places, two bytes each, so inserting a cut moves little.
ghost use Rattle.std.specs.Prelude.{◌≡◌, ℕ, ◌-◌, ◌<◌, ◌≤◌, [], ◌++◌, length, OnOk, IfSome, IfNone, insert, slice_index_or, vec_len, vec_capacity};
ghost use Rattle.cut_sets.specs.Sets.{IsOrdered};
ghost use Rattle.cut_enum.specs.Merging.{IsPlaceOf, IsAround, place, add as with_cut};

use crate::limits::MOST_OF_A_NODE;
use crate::signed::{SignedPart, has_part};
use cut_sets::{FlatCut, before};
use std::alloc::{AllocError, Global};
use std::marker::Model;

// Cuts of one size, each once, as they came, and their places in order.
#[derive(Drop)]
pub struct Level {
    cuts: Vec<FlatCut>,
    places: Vec<u16>,
}

impl Model for Level {
    ghost use Rattle.std.specs.Prelude.{ℕ, List};
    ghost use Rattle.cut_enum.specs.Keeps.{listed, AreListed};

    ghost Value = { List (List ℕ) };

    ghost view = { λ l. listed l.cuts.items l.places.items };

    ghost invariant = { λ l. AreListed l.cuts.items l.places.items };
}

// A range of places.
#[derive(Clone, Copy)]
struct Range {
    low: usize,
    high: usize,
}

// The half of a range in which the place of a cut is.
fn half(level: &Level, cut: &FlatCut, low: usize, high: usize) -> Range
    requires ordered { IsOrdered level.now }
    requires around { IsAround cut.now level.now low high }
    requires some { low < high }
    ensures around { IsAround cut.now level.now result.low result.high }
    ensures less { result.high - result.low < high - low }
{
    let middle = low + (high - low) / 2;
    if before(level.at(middle), cut) {
        return Range {
            low: middle + 1,
            high,
        };
    }
    Range { low, high: middle }
}

// The place of a cut among others in order, by halves.
fn halved_place(level: &Level, cut: &FlatCut) -> usize
    requires { IsOrdered level.now }
    ensures { IsPlaceOf cut.now level.now result }
{
    let mut low = 0;
    let mut high = level.len();
    while low < high {
        let range = half(level, cut, low, high);
        low = range.low;
        high = range.high;
    }
    low
}

// The place of a cut among others in order, unless it stands there.
fn free_place(level: &Level, cut: &FlatCut) -> Option<usize>
    requires { IsOrdered level.now }
    ensures there { IfNone result (place cut.now level.now ≡ level.now) }
    ensures within { IfSome result (λ i. i ≤ length level.now) }
    ensures free { IfSome result (λ i. insert level.now i cut.now ≡ place cut.now level.now) }
{
    let at = halved_place(level, cut);
    if at < level.len() && !before(cut, level.at(at)) {
        return None;
    }
    Some(at)
}

// Puts a number into some others, where there is room for it.
fn insert_place(places: &mut Vec<u16>, at: usize, place: u16)
    requires room { vec_len places.old < vec_capacity places.old }
    requires within { at ≤ length places.old.items }
    ensures { places.new.items ≡ insert places.old.items at place }
{
    let _done = places.insert(at, place);
}

impl Level {
    // No cut.
    pub fn new(alloc: Global) -> Level
        ensures { result ≡ [] }
    {
        Level {
            cuts: Vec::new(alloc),
            places: Vec::new(alloc),
        }
    }

    // Leaves no cut, and keeps the memory.
    pub fn clear(&mut self)
        ensures { self.new ≡ [] }
    {
        self.cuts.clear();
        self.places.clear();
    }

    // How many cuts there are.
    pub fn len(&self) -> usize
        ensures { result ≡ length self.now }
    {
        self.places.len()
    }

    // The cut at a place in order.
    fn at(&self, at: usize) -> &FlatCut
        requires { at < length self.now }
        ensures { result.now ≡ slice_index_or self.now at [] }
    {
        &self.cuts[self.places[at] as usize]
    }

    // Puts a cut in its place, unless it stands there.
    pub fn put(&mut self, cut: FlatCut) -> Result<(), AllocError>
        requires { length self.old ≤ MOST_OF_A_NODE }
        ensures { OnOk result (self.new ≡ place cut self.old) }
    {
        match free_place(self, &cut) {
            None => Ok(()),
            Some(at) => {
                let last = self.cuts.len() as u16;
                self.places.reserve(1)?;
                self.cuts.push(cut)?;
                insert_place(&mut self.places, at, last);
                Ok(())
            }
        }
    }

    // Puts a cut in its place, unless one of the smaller ones is within it or it stands there.
    pub fn add(&mut self, smaller: &SignedPart<'_>, cut: FlatCut) -> Result<(), AllocError>
        requires { length self.old ≤ MOST_OF_A_NODE }
        ensures { OnOk result (self.new ≡ with_cut smaller.now cut self.old) }
    {
        if has_part(smaller, &cut) {
            return Ok(());
        }
        self.put(cut)?;
        Ok(())
    }

    // Adds the cuts, in order, to some others.
    pub fn append_to(&self, cuts: &mut Vec<FlatCut>) -> Result<(), AllocError>
        ensures { OnOk result (cuts.new.items ≡ cuts.old.items ++ self.now) }
    {
        cuts.reserve(self.len())?;
        for i in 0..self.len() {
            cuts.push(self.at(i).copy())?;
        }
        Ok(())
    }
}
