ghost use Rattle.std.specs.Prelude.{◌≡◌, ℕ, ◌+◌, ◌-◌, ◌*◌, ◌<◌, ◌≤◌, ◌^◌, ◌++◌, List, length, IfOk, OnOk, IsTrue, vec_len};
ghost use Rattle.cov_build.specs.Boundaries.{boundary_edges};
ghost use Rattle.std.specs.List.Sorted.{IsPermutation};
ghost use Rattle.cov_build.specs.Rings.{outside_of, IsBoundary, AreRingsBack, AreClosedRings, AreBoundaryRings, AreHolesSorted, IsInFront, IsBoundaryPolygon};
ghost use Rattle.cov_build.specs.Walks.{IsRound};

use crate::boundary::BoundaryEdge;
use crate::ring::{least_end, ring_of, walk};
use cov_types::{NoMemory, Poly, Ring, Seg};
use half_edge::Arena;
use std::alloc::Global;

// The rings of a part, and the place of its shell among them.
#[derive(Drop)]
struct RingList {
    list: Vec<Ring>,
    shell: usize,
}

/// The polygon of the part with this boundary: its shell, and then its holes by their points. Takes memory in proportion to the edges,
/// and time in proportion to them and their logarithm. Where they are all edges of the arena, it serves for the boundary too.
pub fn polygon(alloc: Global, a: &Arena, boundary: &[BoundaryEdge]) -> Result<Poly, NoMemory>
    requires { IsBoundary boundary.now }
    ensures { IfOk result (λ poly. IsBoundaryPolygon boundary.now poly) }
{
    if has_edges(boundary, a.edges()) {
        return polygon_in(alloc, a, boundary);
    }
    let arena = Arena::build(alloc, edges_of(alloc, boundary)?)?;
    polygon_in(alloc, &arena, boundary)
}

// Whether the edges of the boundary are these, in their order.
fn has_edges(boundary: &[BoundaryEdge], edges: &[Seg]) -> bool
    ensures { IsTrue result → edges.now ≡ boundary_edges boundary.now }
{
    if boundary.len() != edges.len() {
        return false;
    }
    for (k, b) in boundary.iter().enumerate() {
        if !b.edge.is_same(edges[k]) {
            return false;
        }
    }
    true
}

// The polygon of the part with this boundary, by an arena of its edges.
fn polygon_in(alloc: Global, a: &Arena, boundary: &[BoundaryEdge]) -> Result<Poly, NoMemory>
    requires boundary { IsBoundary boundary.now }
    requires arena { a.now ≡ boundary_edges boundary.now }
    ensures { IfOk result (λ poly. IsBoundaryPolygon boundary.now poly) }
{
    let rings = walked_rings(alloc, a, boundary)?;
    let polygon = in_order(rings)?;
    Ok(polygon)
}

// The edges of the boundary.
fn edges_of(alloc: Global, boundary: &[BoundaryEdge]) -> Result<Vec<Seg>, NoMemory>
    ensures { IfOk result (λ v. v.items ≡ boundary_edges boundary.now) }
{
    let mut edges = Vec::new(alloc);
    for b in boundary {
        edges.push(b.edge)?;
    }
    Ok(edges)
}

// The rings of the boundary, each walked with the part on the right, and then turned round.
fn walked_rings(alloc: Global, a: &Arena, boundary: &[BoundaryEdge]) -> Result<RingList, NoMemory>
    requires boundary { IsBoundary boundary.now }
    requires arena { a.now ≡ boundary_edges boundary.now }
    ensures rings { IfOk result (λ r. AreBoundaryRings boundary.now r.list.items) }
    ensures closed { IfOk result (λ r. AreClosedRings (boundary_edges boundary.now) r.shell r.list.items) }
    ensures shell { IfOk result (λ r. r.shell < vec_len r.list) }
{
    let mut seen = vec![in alloc; false; a.len()]?;
    let mut rings = RingList {
        list: Vec::new(alloc),
        shell: 0,
    };
    for (k, b) in boundary.iter().enumerate() {
        let start = outside(k, b.above);
        if !seen[start] {
            let way = walk(alloc, a, start, &mut seen)?;
            add_ring(alloc, a, way, &mut rings)?;
        }
    }
    Ok(rings)
}

// The half-edge of edge k that has the part on its right.
fn outside(k: usize, above: bool) -> usize
    requires { 2 * k + 1 < 2 ^ 64 }
    ensures { result ≡ outside_of k above }
{
    if above { 2 * k + 1 } else { 2 * k }
}

// Adds the ring of the walk. It is the shell where the outside has the way straight down from its least vertex.
fn add_ring(alloc: Global, a: &Arena, way: Vec<usize>, rings: &mut RingList) -> Result<(), NoMemory>
    requires round { IsRound a.now way.items }
    requires shell { rings.old.shell ≤ vec_len rings.old.list }
    ensures rings { OnOk result ((passed : List ℕ) → AreRingsBack a.now passed rings.old.list.items → AreRingsBack a.now (passed ++ way.items) rings.new.list.items) }
    ensures closed { OnOk result (AreClosedRings a.now rings.old.shell rings.old.list.items → AreClosedRings a.now rings.new.shell rings.new.list.items) }
    ensures shell { OnOk result (rings.new.shell < vec_len rings.new.list) }
{
    let last = least_end(a, &way);
    let place = rings.list.len();
    if a.opens_down(way[last]) {
        rings.shell = place;
    }
    let ring = ring_of(alloc, a, way, last)?;
    rings.list.push(ring)?;
    Ok(())
}

// The shell, and then the holes by their points.
fn in_order(rings: RingList) -> Result<Poly, NoMemory>
    requires { rings.shell < vec_len rings.list }
    ensures same { IfOk result (λ poly. IsPermutation rings.list.items poly) }
    ensures front { IfOk result (λ poly. IsInFront rings.shell rings.list.items poly) }
    ensures holes { IfOk result (λ poly. AreHolesSorted poly) }
{
    let RingList { mut list, shell } = rings;
    let first = list.remove(shell);
    list.sort_by(|a, b| a.points.cmp(&b.points))?;
    list.insert(0, first)?;
    Ok(Poly { rings: list })
}
