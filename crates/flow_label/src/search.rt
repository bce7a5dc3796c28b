//! The search for one more path.
ghost use Rattle.std.specs.Prelude.{◌≡◌, ℕ, ◌<◌, ◌≤◌, ◌+◌, ◌^◌, List, [], ◌∷◌, true, false, length, IfOk, OnOk, slice_index};
ghost use Rattle.aig_core.specs.Aig.{node_count};
ghost use Rattle.list_laws.specs.Members.{In};
ghost use Rattle.flow_label.specs.Net.{net_of, IsEnd, IsOpen};
ghost use Rattle.flow_label.specs.Links.{AreLinks};
ghost use Rattle.flow_label.specs.Memory.{HasMarks, KeepsMarks, Meets, Searches, WaitForAll};
ghost use Rattle.flow_label.specs.Search.{IsFound, IsEnded};

use crate::links::owner;
use crate::scratch::{Links, PathSearch};
use crate::site::Site;
use std::alloc::AllocError;

/// How a search ends.
#[derive(Clone, Copy, PartialEq, Eq)]
pub enum SearchEnd {
    /// The last node that it met is on no path.
    Found,
    /// Each node that it met is on a path.
    Blocked,
}

// Adds a node to the search, unless no path may pass it or it was met. Returns whether it is on no path, which ends the search.
fn meet(
    site: &Site,
    links: &Links,
    search: &mut PathSearch,
    m: u32,
    back: u32,
) -> Result<bool, AllocError>
    requires node { m < node_count site.now.graph }
    requires room { m < length search.old.seen }
    requires small { length search.old.queue.items < 2 ^ 30 }
    ensures met { IfOk result (Meets site.now links.now m back search.old search.new) }
    ensures passed { search.new.passed ≡ search.old.passed }
{
    if !site.is_open(m) || search.seen.get(m) != 0 {
        return Ok(false);
    }
    let place = search.queue.len() as u32;
    search.seen.set(m, 1);
    search.queue.push(m)?;
    search.backs.push(back)?;
    if owner(site, links, m) == 0 {
        return Ok(true);
    }
    search.stack.push(place)?;
    Ok(false)
}

// Meets everything that the owner of the node at this place may choose. Returns whether the search ends.
fn hand_on(
    site: &Site,
    links: &Links,
    search: &mut PathSearch,
    place: u32,
) -> Result<bool, AllocError>
    requires linked { AreLinks site.now links.now.owners links.now.starts.items }
    requires searching { Searches site.now links.now search.old (place ∷ search.old.stack.items) }
    ensures on { IfOk result (λ ends. ends ≡ false → Searches site.now links.now search.new search.new.stack.items) }
    ensures ended { IfOk result (λ ends. ends ≡ true → IsFound site.now links.now.owners search.new.queue.items search.new.backs.items) }
    ensures kept { OnOk result ((u : ℕ) → In search.old.queue.items u → In search.new.queue.items u) }
    ensures lengths { IfOk result (λ ends. ends ≡ false → WaitForAll search.old search.new) }
    ensures marks { OnOk result (KeepsMarks search.old search.new) }
{
    let node = site.node();
    let a = owner(site, links, search.queue[place as usize]);
    if a == node {
        return Ok(false);
    }
    let below = site.fan_ins(a);
    search.passed.set(a, 1);
    if meet(site, links, search, a, place + 1)? {
        return Ok(true);
    }
    if meet(site, links, search, below.far, place + 1)? {
        return Ok(true);
    }
    let ends = meet(site, links, search, below.near, place + 1)?;
    Ok(ends)
}

/// A search that has met nothing.
pub fn begin(site: &Site, links: &Links, search: &mut PathSearch)
    requires seen { length search.old.seen ≡ node_count site.now.graph }
    requires passed { length search.old.passed ≡ node_count site.now.graph }
    ensures searching { Searches site.now links.now search.new [] }
    ensures none { search.new.stack.items ≡ [] }
{
    // The proof needs what the contract of this call says of the site.
    let _node = site.node();
    search.seen.clear();
    search.queue.clear();
    search.backs.clear();
    search.stack.clear();
    search.passed.clear();
}

/// Goes on from an end, until nothing waits. Returns whether the search ends.
///
/// # Errors
/// Only if memory runs out.
pub fn search_from(
    site: &Site,
    links: &Links,
    search: &mut PathSearch,
    m: u32,
) -> Result<bool, AllocError>
    requires linked { AreLinks site.now links.now.owners links.now.starts.items }
    requires end { IsEnd (net_of site.now) m }
    requires searching { Searches site.now links.now search.old [] }
    requires none { search.old.stack.items ≡ [] }
    ensures on { IfOk result (λ ends. ends ≡ false → Searches site.now links.now search.new []) }
    ensures none { IfOk result (λ ends. ends ≡ false → search.new.stack.items ≡ []) }
    ensures there { IfOk result (λ ends. ends ≡ false → IsOpen (net_of site.now) m → In search.new.queue.items m) }
    ensures kept { OnOk result ((u : ℕ) → In search.old.queue.items u → In search.new.queue.items u) }
    ensures ended { IfOk result (λ ends. ends ≡ true → IsFound site.now links.now.owners search.new.queue.items search.new.backs.items) }
    ensures marks { OnOk result (KeepsMarks search.old search.new) }
{
    // The proof needs what the contract of this call says of the site.
    let _node = site.node();
    if meet(site, links, search, m, 0)? {
        return Ok(true);
    }
    while let Some(place) = search.stack.pop() {
        if hand_on(site, links, search, place)? {
            return Ok(true);
        }
    }
    Ok(false)
}

/// Searches for one more path. The search goes down from the node, and back up if a path is in the way, until it meets a node
/// that is on no path, which is a regular source or linked. It goes on from what it met last, and of the fan-ins of a node from the
/// one that is nearer to a source.
///
/// # Errors
/// Only if memory runs out.
pub fn find(site: &Site, links: &Links, search: &mut PathSearch) -> Result<SearchEnd, AllocError>
    requires linked { AreLinks site.now links.now.owners links.now.starts.items }
    requires seen { length search.old.seen ≡ node_count site.now.graph }
    requires passed { length search.old.passed ≡ node_count site.now.graph }
    ensures ended { IfOk result (λ outcome. IsEnded site.now links.now.owners search.new.queue.items search.new.backs.items search.new.passed outcome) }
    ensures marks { OnOk result (HasMarks (node_count site.now.graph) search.new) }
{
    begin(site, links, search);
    let ends = site.ends();
    for m in ends {
        if search_from(site, links, search, *m)? {
            return Ok(SearchEnd::Found);
        }
    }
    Ok(SearchEnd::Blocked)
}
