//! The paths as lists, from their starts up to the node.
ghost use Rattle.std.specs.Prelude.{◌≡◌, ℕ, ◌<◌, length, map, IfOk};
ghost use Rattle.aig_core.specs.Aig.{IsSource};
ghost use Rattle.aig_core.specs.declared.lit.Kind.TheVariants.{Regular};
ghost use Rattle.flow_label.specs.Net.{net_of, AreReaders};
ghost use Rattle.flow_label.specs.Links.{AreLinks, owner_in, next_of, IsWayTo, AreWays};

use crate::links::owner;
use crate::scratch::Links;
use crate::site::Site;
use std::alloc::{AllocError, Global};

// The next node up: the owner of a low node that isn't an end, and otherwise the reader.
fn next(site: &Site, links: &Links, m: u32) -> u32
    ensures { result ≡ next_of (net_of site.now) (owner_in site.now links.now.owners) m }
{
    if !site.is_low(m) {
        return site.reader(m);
    }
    let chooser = owner(site, links, m);
    if chooser == site.node() {
        return site.reader(m);
    }
    chooser
}

// The path from a start.
fn path_from(alloc: Global, site: &Site, links: &Links, s: u32) -> Result<Vec<u32>, AllocError>
    requires linked { AreLinks site.now links.now.owners links.now.starts.items }
    requires readers { AreReaders (net_of site.now) }
    requires source { IsSource site.now.graph Regular s }
    requires owned { 0 < owner_in site.now links.now.owners s }
    ensures { IfOk result (λ path. IsWayTo (net_of site.now) (owner_in site.now links.now.owners) s site.now.node path.items) }
{
    let node = site.node();
    let mut path = Vec::new(alloc);
    path.push(s)?;
    let mut m = s;
    while m != node {
        m = next(site, links, m);
        path.push(m)?;
    }
    Ok(path)
}

/// The paths of the links, one from each start.
///
/// # Errors
/// Only if memory runs out.
pub fn paths_of(alloc: Global, site: &Site, links: &Links) -> Result<Vec<Vec<u32>>, AllocError>
    requires linked { AreLinks site.now links.now.owners links.now.starts.items }
    requires readers { AreReaders (net_of site.now) }
    requires full { site.now.floor ≡ length site.now.graph.kinds }
    ensures { IfOk result (λ paths. AreWays (net_of site.now) (owner_in site.now links.now.owners) links.now.starts.items (map (λ p. p.items) paths.items)) }
{
    let mut paths = Vec::new(alloc);
    for s in &links.starts {
        let path = path_from(alloc, site, links, *s)?;
        paths.push(path)?;
    }
    Ok(paths)
}
