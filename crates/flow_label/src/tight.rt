//! Whether a search was held up at the floor.
ghost use Rattle.std.specs.Prelude.{◌≡◌, ℕ, ◌<◌, true, length};
ghost use Rattle.aig_core.specs.Aig.{node_count, IsAnd};
ghost use Rattle.list_laws.specs.Members.{In};
ghost use Rattle.cut_sets.specs.Labels.{label_at};
ghost use Rattle.cut_sets.specs.Paths.{IsFanIn};
ghost use Rattle.flow_label.specs.Value.{IsLive};
ghost use Rattle.flow_label.specs.Net.{net_of, IsInner, IsOpen};
ghost use Rattle.flow_label.specs.Links.{owner_in};
ghost use Rattle.flow_label.specs.Search.{IsTight};

use crate::links::owner;
use crate::scratch::Links;
use crate::site::Site;

// Whether paths may pass all these nodes.
fn are_open(site: &Site, nodes: &[u32]) -> bool
    requires { (m : ℕ) → In nodes.now m → m < node_count site.now.graph }
    ensures { result ≡ true → (m : ℕ) → In nodes.now m → IsOpen (net_of site.now) m }
{
    for m in nodes {
        if !site.is_open(*m) {
            return false;
        }
    }
    true
}

// Whether a node is free, or a path may pass it.
fn is_free_or_open(site: &Site, m: u32) -> bool
    requires { m < node_count site.now.graph }
    ensures { result ≡ true → IsLive site.now.graph (label_at site.now.labels) m → IsOpen (net_of site.now) m }
{
    !site.is_live(m) || site.is_open(m)
}

// Whether paths may pass all live nodes that an AND node reads.
fn reads_open(site: &Site, a: u32) -> bool
    requires { IsAnd site.now.graph a }
    ensures { result ≡ true → (m : ℕ) → IsFanIn site.now.graph m a → IsLive site.now.graph (label_at site.now.labels) m → IsOpen (net_of site.now) m }
{
    let below = site.fan_ins(a);
    is_free_or_open(site, below.far) && is_free_or_open(site, below.near)
}

// Whether paths may pass all live nodes that the owners of these nodes read.
fn pass_open(site: &Site, links: &Links, queue: &[u32]) -> bool
    ensures { result ≡ true → (u m : ℕ) → In queue.now u → IsInner (net_of site.now) (owner_in site.now links.now.owners u) → IsFanIn site.now.graph m (owner_in site.now links.now.owners u) → IsLive site.now.graph (label_at site.now.labels) m → IsOpen (net_of site.now) m }
{
    // The proof needs what the contract of this call says of the site.
    let _node = site.node();
    for u in queue {
        let a = owner(site, links, *u);
        if site.is_inner(a) && !reads_open(site, a) {
            return false;
        }
    }
    true
}

/// Whether the search that met these nodes wasn't held up at the floor.
pub fn is_tight(site: &Site, links: &Links, queue: &[u32]) -> bool
    ensures tight { result ≡ true → IsTight (net_of site.now) (owner_in site.now links.now.owners) queue.now }
    ensures full { site.now.floor ≡ length site.now.graph.kinds → result ≡ true }
{
    // The proof needs what the contract of this call says of the site.
    let _node = site.node();
    site.is_full() || (are_open(site, site.ends()) && pass_open(site, links, queue))
}
