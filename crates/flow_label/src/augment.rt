//! Adding one more path, given what the search met.
ghost use Rattle.std.specs.Prelude.{◌≡◌, ℕ, ◌<◌, ◌+◌, ◌-◌, length, OnOk, slice_index};
ghost use Rattle.aig_core.specs.Aig.{node_count};
ghost use Rattle.flow_label.specs.Links.{AreLinks};
ghost use Rattle.flow_label.specs.Memory.{turned};
ghost use Rattle.flow_label.specs.Search.{IsFound, CanTurn};

use crate::links::owner;
use crate::scratch::{Links, PathSearch};
use crate::site::Site;
use std::alloc::AllocError;

// Reassigns one step of the search: the owner of the place before chooses the node of this place instead of its old one.
// Returns the place before.
fn turn(site: &Site, links: &mut Links, search: &PathSearch, j: u32) -> u32
    requires size { length links.old.owners ≡ node_count site.now.graph }
    requires inside { j < length search.now.queue.items }
    requires count { length search.now.backs.items ≡ length search.now.queue.items }
    requires more { 0 < slice_index search.now.backs.items j }
    requires range { CanTurn site.now links.old.owners search.now.queue.items search.now.backs.items j }
    ensures back { result ≡ slice_index search.now.backs.items j - 1 }
    ensures owners { links.new.owners ≡ turned site.now links.old.owners search.now j }
    ensures starts { links.new.starts.items ≡ links.old.starts.items }
{
    let back = search.backs[j as usize] - 1;
    let node = search.queue[j as usize];
    let other = search.queue[back as usize];
    let chooser = owner(site, links, other);
    links.owners.set(node, chooser);
    back
}

/// Adds the path that the search found.
///
/// # Errors
/// Only if there is no memory for the start of the path.
pub fn add_path(site: &Site, links: &mut Links, search: &PathSearch) -> Result<(), AllocError>
    requires linked { AreLinks site.now links.old.owners links.old.starts.items }
    requires found { IsFound site.now links.old.owners search.now.queue.items search.now.backs.items }
    ensures linked { OnOk result (AreLinks site.now links.new.owners links.new.starts.items) }
    ensures count { OnOk result (length links.new.starts.items ≡ length links.old.starts.items + 1) }
{
    let node = site.node();
    let place = search.queue.len() as u32 - 1;
    links.starts.push(search.queue[place as usize])?;
    let mut j = place;
    while search.backs[j as usize] > 0 {
        j = turn(site, links, search, j);
    }
    let end = search.queue[j as usize];
    links.owners.set(end, node);
    Ok(())
}
