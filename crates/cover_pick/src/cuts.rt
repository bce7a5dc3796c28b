//! The chosen cuts of the needed nodes.
ghost use Rattle.std.specs.Prelude.{◌≡◌, Option, None, List, IfOk, slice_index_or};
ghost use Rattle.cover_pick.specs.Choices.{AreCutsBy, CanChoose};
ghost use Rattle.cover_pick.specs.Places.{place_at as the_place_at};
ghost use Rattle.cover_pick.specs.Planned.{AreFlows};

use crate::choices::Choices;
use crate::required::chosen_places;
use crate::rule::Rule;
use crate::tables::table_bits;
use bounded_cuts::TABLE_PRICE;
use cut_enum::Cut;
use cut_sets::CutRows;
use std::alloc::{AllocError, Global};
use std::marker::Model;

/// The chosen cut of each needed AND node, by its place in the node's row.
#[derive(Drop)]
pub struct ChosenCuts<'a> {
    rows: &'a CutRows,
    places: Vec<Option<u32>>,
}

impl<'a> Model for ChosenCuts<'a> {
    ghost use Rattle.std.specs.Prelude.{ℕ, List, Option};
    ghost use Rattle.cover_pick.specs.Places.{cuts_of, ArePlaces};

    ghost Value = { List (Option (List ℕ)) };

    ghost view = { λ c. cuts_of c.rows.now c.places.items };

    ghost invariant = { λ c. ArePlaces c.rows.now c.places.items };
}

// The place of a node's cut, if it has one.
fn place_at(places: &[Option<u32>], n: u32) -> Option<u32>
    ensures { result ≡ the_place_at places.now n }
{
    places.get(n as usize).copied().unwrap_or(None)
}

impl<'a> ChosenCuts<'a> {
    ghost use Rattle.std.specs.Prelude.{◌≡◌, ◌≤◌, ◌^◌};
    ghost use Rattle.depth_label.specs.Fold.{or_empty};
    ghost use Rattle.cover_pick.specs.Planned.{cut_at};
    ghost use Rattle.cover_pick.specs.Uses.{has_cut, price as the_price};

    /// The chosen cut of a node, or `None` if it isn't a needed AND node.
    pub fn cut(&self, alloc: Global, n: u32) -> Option<Cut>
        ensures { result ≡ cut_at self.now n }
    {
        match place_at(&self.places, n) {
            None => None,
            Some(place) => Some(Cut::of(alloc, self.rows.leaves(n, place))),
        }
    }

    /// The cost of the LUT of a node's chosen cut, 256 plus its bits. 0 for a node without one.
    pub fn price(&self, n: u32) -> u64
        ensures value { result ≡ the_price (cut_at self.now n) }
        ensures small { result ≤ 2 ^ 9 }
    {
        match place_at(&self.places, n) {
            None => 0,
            Some(place) => TABLE_PRICE + table_bits(self.rows.leaves(n, place).len()) as u64,
        }
    }

    /// Whether a node has a chosen cut.
    pub fn is_chosen(&self, n: u32) -> bool
        ensures { result ≡ has_cut (cut_at self.now n) }
    {
        place_at(&self.places, n).is_some()
    }

    /// The leaves of a node's chosen cut, without a copy. Empty for a node without one.
    pub fn leaves(&self, n: u32) -> &[u32]
        ensures { result.now ≡ or_empty (cut_at self.now n) }
    {
        match place_at(&self.places, n) {
            None => &[],
            Some(place) => self.rows.leaves(n, place),
        }
    }
}

// The cuts that are chosen by some flows for the needed AND nodes. They are a cover of the graph with the least depth.
pub fn cuts_by<'a>(
    alloc: Global,
    rule: Rule,
    choices: &Choices<'a>,
    flows: &[u64],
) -> Result<ChosenCuts<'a>, AllocError>
    requires can { CanChoose rule choices.now }
    requires flows { AreFlows choices.now.graph.now flows.now }
    ensures { IfOk result (AreCutsBy rule choices.now flows.now) }
{
    let places = chosen_places(alloc, rule, choices, flows)?;
    Ok(ChosenCuts {
        rows: choices.rows,
        places,
    })
}
