ghost use Rattle.std.specs.Prelude.{IfOk};
ghost use Rattle.cov_types.specs.Coverage.{AllInRange};
ghost use Rattle.cov_types.specs.Uses.{HasEvenEnds};
ghost use Rattle.arrangement.specs.Noding.{odd_uses};
ghost use Rattle.sector_laws.specs.Sector.{IsPlanar, AreDistinct};

use cov_types::{Coord, Coverage, Member, NoMemory, Poly, Ring, in_range, uses};
use face_walk::Regions;
use half_edge::Arena;
use narrow_gaps::narrow_gaps;
use owner_label::Labels;
use snap_noder::{LiveEdges, live, node};
use std::alloc::Global;
use std::test::Fail;

const OUTER: [(i32, i32); 4] = [(0, 0), (20, 0), (20, 20), (0, 20)];

/// Within it is the lower side, 7, of the edge from (9, 9) to (9, 11), which is the fourth.
const HOLE: [(i32, i32); 4] = [(9, 9), (9, 11), (11, 11), (11, 9)];

#[test]
fn a_gap_is_narrow_from_a_width_on(rt: HostRuntime) -> Result<(), Fail> {
    let alloc = rt.alloc();
    let mut rings = Vec::new(alloc);
    rings.push(ring(alloc, &OUTER)?)?;
    rings.push(ring(alloc, &HOLE)?)?;
    let mut polys = Vec::new(alloc);
    polys.push(Poly { rings })?;
    let mut members = Vec::new(alloc);
    members.push(Member { polys })?;
    let frame = Coverage { members };
    assert!(rt; in_range(&frame));
    let live = live_edges(alloc, &frame)?;
    let arena = Arena::build(alloc, live.edges.to_vec(alloc)?)?;
    let regions = Regions::build(alloc, &arena)?;
    let labels = Labels::build(alloc, &arena, &regions, &live)?;
    for width in [0, 1, 2] {
        assert!(rt; narrow_gaps(alloc, &arena, &regions, &labels, width)?.is_empty());
    }
    let narrow = narrow_gaps(alloc, &arena, &regions, &labels, 3)?;
    assert_eq!(rt; narrow.as_slice(), [7].as_slice());
    Ok(())
}

fn ring(alloc: Global, points: &[(i32, i32)]) -> Result<Ring, NoMemory> {
    let mut list = Vec::new(alloc);
    for (x, y) in points {
        list.push(Coord { x: *x, y: *y })?;
    }
    Ok(Ring { points: list })
}

fn live_edges(alloc: Global, c: &Coverage) -> Result<LiveEdges, NoMemory>
    requires { AllInRange c.now }
    ensures planar { IfOk result (λ l. IsPlanar l.edges.items) }
    ensures distinct { IfOk result (λ l. AreDistinct l.edges.items) }
    ensures even { IfOk result (λ l. HasEvenEnds (odd_uses l.edges.items l.odd.items)) }
{
    let uses = uses(alloc, c)?;
    let noded = node(alloc, &uses)?;
    live(alloc, &noded)
}
