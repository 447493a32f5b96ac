ghost use Rattle.std.specs.Prelude.{◌≡◌, ℕ, ◌*◌, ◌<◌, ◌∷◌, [], List, length, cond, Option, IfOk, OnOk, IfSome, IsTrue};
ghost use Rattle.cov_build.specs.Boundaries.{AreBoundaries, AreAdded, boundary_edge};
ghost use Rattle.cov_build.specs.Parted.{AreBelow, is_part};
ghost use Rattle.cov_build.specs.declared.part.Part.{Part};

use crate::part::Part;
use cov_types::{NoMemory, Seg};
use std::alloc::Global;

/// An edge on the boundary of a part, which is on one side of it.
#[derive(Clone, Copy)]
pub struct BoundaryEdge {
    pub edge: Seg,
    /// Whether the part is above the edge, on its upper side.
    pub above: bool,
}

/// For each number that may be that of a part the edges on the boundary of the part, in the order of the edges. Each edge is on two
/// boundaries at most, so time and memory are in proportion to the edges.
pub fn boundaries(
    alloc: Global,
    edges: &[Seg],
    parts: &[Option<Part>],
) -> Result<Vec<Vec<BoundaryEdge>>, NoMemory>
    requires count { length parts.now ≡ 2 * length edges.now }
    requires below { AreBelow parts.now (length parts.now) }
    ensures { IfOk result (λ v. AreBoundaries parts.now edges.now v.items) }
{
    let mut lists = empty_lists(alloc, parts.len())?;
    for (k, edge) in edges.iter().enumerate() {
        add_edge(&mut lists, *edge, parts[2 * k], parts[2 * k + 1])?;
    }
    Ok(lists)
}

fn empty_lists(alloc: Global, count: usize) -> Result<Vec<Vec<BoundaryEdge>>, NoMemory>
    ensures { IfOk result (λ v. (parts : List (Option Part)) → length parts ≡ count → AreBoundaries parts [] v.items) }
{
    let mut lists = Vec::new(alloc);
    for _ in 0..count {
        lists.push(Vec::new(alloc))?;
    }
    Ok(lists)
}

// Adds the edge to the boundaries of the parts above and below it, unless these are one part.
fn add_edge(
    lists: &mut [Vec<BoundaryEdge>],
    edge: Seg,
    above: Option<Part>,
    below: Option<Part>,
) -> Result<(), NoMemory>
    requires above { IfSome above (λ p. p.least < length lists.old) }
    requires below { IfSome below (λ p. p.least < length lists.old) }
    ensures { OnOk result (AreAdded (λ p. boundary_edge (is_part above p) (is_part below p) edge) lists.old lists.new) }
{
    if is_same_part(above, below) {
        return Ok(());
    }
    add_to(lists, above, BoundaryEdge { edge, above: true })?;
    add_to(lists, below, BoundaryEdge { edge, above: false })?;
    Ok(())
}

// Whether the two are one part, or none.
fn is_same_part(first: Option<Part>, second: Option<Part>) -> bool
    ensures same { IsTrue result → first ≡ second }
    ensures other { first ≡ second → IsTrue result }
{
    match (first, second) {
        (Some(a), Some(b)) => a.least == b.least,
        (None, None) => true,
        _ => false,
    }
}

// Adds the edge to the boundary of the part, if there is one.
fn add_to(
    lists: &mut [Vec<BoundaryEdge>],
    part: Option<Part>,
    edge: BoundaryEdge,
) -> Result<(), NoMemory>
    requires { IfSome part (λ p. p.least < length lists.old) }
    ensures { OnOk result (AreAdded (λ p. cond (is_part part p) (edge ∷ []) []) lists.old lists.new) }
{
    if let Some(part) = part {
        let list = &mut lists[part.least];
        list.push(edge)?;
    }
    Ok(())
}
