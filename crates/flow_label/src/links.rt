//! The paths to a node, as a matching.
ghost use Rattle.std.specs.Prelude.{◌≡◌, ℕ, [], length};
ghost use Rattle.aig_core.specs.Aig.{node_count};
ghost use Rattle.flow_label.specs.Links.{AreLinks, owner_in};

use crate::scratch::Links;
use crate::site::Site;

/// The node that has chosen m.
pub fn owner(site: &Site, links: &Links, m: u32) -> u32
    ensures { result ≡ owner_in site.now links.now.owners m }
{
    let set = links.owners.get(m);
    if set == 0 {
        return site.first_owner(m);
    }
    set
}

/// Removes all paths.
pub fn clear_links(site: &Site, links: &mut Links)
    requires { length links.old.owners ≡ node_count site.now.graph }
    ensures linked { AreLinks site.now links.new.owners links.new.starts.items }
    ensures none { links.new.starts.items ≡ [] }
{
    // The proof needs what the contract of this call says of the site.
    let _node = site.node();
    links.owners.clear();
    links.starts.clear();
}
