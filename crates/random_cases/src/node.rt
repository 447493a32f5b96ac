//! Noding against plain snap rounding, by all pairs of segments and all hot pixels.

ghost use Rattle.std.specs.Prelude.{◌≤◌, All, IfOk, length};
ghost use Rattle.cov_types.specs.Range.{IsSegInRange};

use crate::coverages::coverage_uses;
use crate::random::Random;
use crate::segments::{random_layout, random_uses};
use cov_types::{Coord, EdgeUse, NoMemory, Seg};
use grid_pred::crossing;
use hot_pixel::{before, meets, pixel_of};
use snap_noder::{OddUse, node};
use std::alloc::Global;

/// A list of uses: where its noded edges or its odd uses differ from the plain ones.
pub fn node_case(alloc: Global, random: &mut Random) -> Result<Option<String>, NoMemory> {
    let uses = if random.one_in(3) {
        coverage_uses(alloc, random)?
    } else {
        any_uses(alloc, random)?
    };
    let noded = node(alloc, &uses)?;
    let snapped = plain_snapped(alloc, &uses)?;
    let edges = plain_edges(alloc, &snapped)?;
    if noded.edges.as_slice() != edges.as_slice() {
        let found = noded.edges.as_slice();
        return Ok(Some(format!(in alloc; "edges of {uses:?}: node {found:?}, plain {edges:?}")?));
    }
    let odd = plain_odd(alloc, &edges, &snapped)?;
    if noded.odd.as_slice() != odd.as_slice() {
        let found = noded.odd.as_slice();
        return Ok(Some(format!(in alloc; "odd uses of {uses:?}: node {found:?}, plain {odd:?}")?));
    }
    Ok(None)
}

fn any_uses(alloc: Global, random: &mut Random) -> Result<Vec<EdgeUse>, NoMemory>
    ensures { IfOk result (λ uses. All (λ u. IsSegInRange u.seg) uses.items) }
{
    let layout = random_layout(random);
    let most = if random.one_in(20) { 161 } else { 41 };
    let count = random.below(most);
    random_uses(alloc, layout, count, random)
}

// ---- the plain form

// The centres of the hot pixels, each once: those of all ends, and of the crossings of all pairs.
fn plain_hot(alloc: Global, uses: &[EdgeUse]) -> Result<Vec<Coord>, NoMemory>
    requires { All (λ u. IsSegInRange u.seg) uses.now }
{
    let mut centres = Vec::new(alloc);
    for u in uses {
        centres.push(u.seg.lo)?;
        centres.push(u.seg.hi)?;
        add_crossed(&mut centres, u.seg, uses)?;
    }
    centres.sort_unstable();
    centres.dedup();
    Ok(centres)
}

fn add_crossed(centres: &mut Vec<Coord>, s: Seg, uses: &[EdgeUse]) -> Result<(), NoMemory>
    requires in_range { IsSegInRange s }
    requires uses_in_range { All (λ u. IsSegInRange u.seg) uses.now }
{
    for u in uses {
        if let Some(point) = crossing(s, u.seg) {
            centres.push(pixel_of(&point))?;
        }
    }
    Ok(())
}

// The centres whose pixels the segment meets, in the order in which it passes them.
fn plain_chain(alloc: Global, s: Seg, hot: &[Coord]) -> Result<Vec<Coord>, NoMemory>
    requires { IsSegInRange s }
{
    let mut chain = Vec::new(alloc);
    for r in hot {
        if meets(s, *r) {
            let place = passed_before(s, *r, &chain);
            chain.insert(place, *r)?;
        }
    }
    Ok(chain)
}

// How many of the centres the segment passes before r.
fn passed_before(s: Seg, r: Coord, centres: &[Coord]) -> usize
    requires { IsSegInRange s }
    ensures { result ≤ length centres.now }
{
    let mut count = 0;
    for a in centres {
        if passes_first(s, *a, r) {
            count += 1;
        }
    }
    count
}

// The segment meets the pixels of both, and passes that of a before that of b.
fn passes_first(s: Seg, a: Coord, b: Coord) -> bool
    requires { IsSegInRange s }
{
    if !meets(s, a) {
        return false;
    }
    if !meets(s, b) {
        return false;
    }
    before(s, a, b)
}

// The uses of the edges between neighbours of the chains.
fn plain_snapped(alloc: Global, uses: &[EdgeUse]) -> Result<Vec<EdgeUse>, NoMemory>
    requires { All (λ u. IsSegInRange u.seg) uses.now }
{
    let hot = plain_hot(alloc, uses)?;
    let mut snapped = Vec::new(alloc);
    for u in uses {
        let chain = plain_chain(alloc, u.seg, &hot)?;
        add_chain(&mut snapped, u.member, &chain)?;
    }
    Ok(snapped)
}

fn add_chain(snapped: &mut Vec<EdgeUse>, member: u32, chain: &[Coord]) -> Result<(), NoMemory> {
    for i in 1..chain.len() {
        if let Some(seg) = Seg::between(chain[i - 1], chain[i]) {
            snapped.push(EdgeUse { member, seg })?;
        }
    }
    Ok(())
}

// The edges, each once, ascending.
fn plain_edges(alloc: Global, snapped: &[EdgeUse]) -> Result<Vec<Seg>, NoMemory> {
    let mut edges = Vec::new(alloc);
    for u in snapped {
        edges.push(u.seg)?;
    }
    edges.sort_unstable();
    edges.dedup();
    Ok(edges)
}

// Of each member, the edges that it uses an odd number of times.
fn plain_odd(alloc: Global, edges: &[Seg], snapped: &[EdgeUse]) -> Result<Vec<OddUse>, NoMemory> {
    let mut odd = Vec::new(alloc);
    for member in members_of(alloc, snapped)? {
        for (edge, seg) in edges.iter().enumerate() {
            let times = times(snapped, EdgeUse { member, seg: *seg });
            if times % 2 == 1 {
                odd.push(OddUse { member, edge })?;
            }
        }
    }
    Ok(odd)
}

// The members of the uses, each once, ascending.
fn members_of(alloc: Global, list: &[EdgeUse]) -> Result<Vec<u32>, NoMemory> {
    let mut members = Vec::new(alloc);
    for u in list {
        members.push(u.member)?;
    }
    members.sort_unstable();
    members.dedup();
    Ok(members)
}

// How often the use stands in the list.
fn times(list: &[EdgeUse], u: EdgeUse) -> usize {
    list.iter().filter(|v| **v == u).count()
}
