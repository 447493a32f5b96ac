ghost use Rattle.std.specs.Prelude.{◌≡◌, ◌+◌, ◌<◌, ◌++◌, All, IfOk, IsTrue, OnOk, ◌↔◌, length};
ghost use Rattle.cov_types.specs.Range.{IsSegInRange};
ghost use Rattle.cov_types.specs.Uses.{HasEvenEnds};
ghost use Rattle.plane.specs.Noded.{IsNodedFully};
ghost use Rattle.arrangement.specs.Noding.{AreEdges, IsNoded, odd_uses, segments};
ghost use Rattle.sector_laws.specs.Sector.{AreDistinct};
ghost use Rattle.snap_noder.specs.Snapped.{AreSnappedOver, HasSegmentBefore, IsNearSegments, chain_uses};

use crate::along_curve::along_curve;
use crate::noded::Noded;
use crate::parity::edges_of;
use cov_types::{Coord, EdgeUse, NoMemory, Seg};
use hot_pixel::HotSet;
use std::alloc::Global;

/// The noded edges of the uses, and for each member those that it has an odd number of times. Takes n log n time in the number of
/// uses, crossings and chain edges, and besides the pairs of distinct segments whose boxes touch; memory in proportion to the uses,
/// crossings and chain edges.
pub fn node(alloc: Global, list: &[EdgeUse]) -> Result<Noded, NoMemory>
    requires { All (λ u. IsSegInRange u.seg) list.now }
    ensures exact { IfOk result (λ n. IsNoded list.now n.edges.items n.odd.items) }

    // Any two edges are equal or have at most common ends in common.
    ensures fully_noded { IfOk result (λ n. IsNodedFully n.edges.items) }
    ensures distinct { IfOk result (λ n. AreDistinct n.edges.items) }
    ensures half_unit { IfOk result (λ n. IsNearSegments list.now n.edges.items) }
    ensures in_range { IfOk result (λ n. All IsSegInRange n.edges.items) }

    // Of any set of points, each member has an even number of ends of its odd edges in it, where its uses have.
    ensures even { IfOk result (λ n. HasEvenEnds list.now → HasEvenEnds (odd_uses n.edges.items n.odd.items)) }
{
    let mut hot = HotSet::build(alloc, list)?;
    let along = along_curve(alloc, list)?;
    let uses = snapped_uses(alloc, &mut hot, along.as_slice())?;
    edges_of(alloc, uses)
}

/// The segments of the uses themselves, each once, and for each member those that it uses an odd number of times. Takes n log n time
/// in the number of uses, and memory in proportion to it.
pub fn plain(alloc: Global, list: &[EdgeUse]) -> Result<Noded, NoMemory>
    requires in_range { All (λ u. IsSegInRange u.seg) list.now }
    requires noded { IsNodedFully (segments list.now) }
    ensures exact { IfOk result (λ n. AreEdges list.now n.edges.items n.odd.items) }
    ensures fully_noded { IfOk result (λ n. IsNodedFully n.edges.items) }
    ensures distinct { IfOk result (λ n. AreDistinct n.edges.items) }
    ensures in_range { IfOk result (λ n. All IsSegInRange n.edges.items) }
    ensures even { IfOk result (λ n. HasEvenEnds list.now → HasEvenEnds (odd_uses n.edges.items n.odd.items)) }
{
    edges_of(alloc, Vec::from_slice(alloc, list)?)
}

// The uses of all chain edges: of each use in turn, along its chain. Uses of one segment that stand together share one chain.
fn snapped_uses(alloc: Global, hot: &mut HotSet, uses: &[EdgeUse]) -> Result<Vec<EdgeUse>, NoMemory>
    requires { All (λ u. IsSegInRange u.seg) uses.now }
    ensures { IfOk result (λ snapped. AreSnappedOver hot.old uses.now snapped.items) }
{
    let mut snapped = Vec::new(alloc);
    let mut chain = Vec::new(alloc);
    for (i, u) in uses.iter().enumerate() {
        gather_at(hot, uses, i)?;
        if !has_segment_before(uses, i) {
            chain = hot.chain(u.seg)?;
        }
        add_chain(&mut snapped, *u, chain.as_slice())?;
    }
    Ok(snapped)
}

// How many uses that stand together ask for the centres near them with one query.
const BLOCK: usize = 16;

// Where a block of uses begins, gathers what their chains are found in.
fn gather_at(hot: &mut HotSet, uses: &[EdgeUse], i: usize) -> Result<(), NoMemory>
    requires { i < length uses.now }
    ensures { hot.new ≡ hot.old }
{
    if i % BLOCK == 0 {
        let past = uses.len().min(i + BLOCK);
        hot.gather(&uses[i..past])?;
    }
    Ok(())
}

// Whether the use before this one has the same segment.
fn has_segment_before(uses: &[EdgeUse], i: usize) -> bool
    requires { i < length uses.now }
    ensures { IsTrue result ↔ HasSegmentBefore uses.now i }
{
    0 < i && uses[i - 1].seg == uses[i].seg
}

fn add_chain(uses: &mut Vec<EdgeUse>, u: EdgeUse, chain: &[Coord]) -> Result<(), NoMemory>
    ensures { OnOk result (uses.new.items ≡ uses.old.items ++ chain_uses (u, chain.now)) }
{
    for i in 1..chain.len() {
        if let Some(seg) = Seg::between(chain[i - 1], chain[i]) {
            uses.push(EdgeUse {
                member: u.member,
                seg,
            })?;
        }
    }
    Ok(())
}
