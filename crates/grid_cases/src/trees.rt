ghost use Rattle.cov_types.specs.Range.{IsSegInRange};
ghost use Rattle.box_tree.specs.Probe.{IsProbeInRange};

use box_tree::{BoxTree, Probe, Rect, Search, curve, narrow_into};
use cov_types::{Coord, NoMemory, Seg};
use std::alloc::Global;
use std::process::Abort;
use std::test::Fail;

#[test]
fn a_tree_finds_what_a_scan_finds(rt: HostRuntime) -> Result<(), Fail> {
    let alloc = rt.alloc();
    let list = scattered(alloc, 100)?;
    let tree = BoxTree::build(alloc, scattered(alloc, 100)?)?;
    let list = list.as_slice();
    let wide = Rect::spanning(point(20, 30), point(45, 50));
    assert!(rt; agree(alloc, &tree, list, Probe::Box(wide))?);
    assert!(rt;
        agree(
            alloc,
            &tree,
            list,
            Probe::Box(Rect::of_point(point(1000, 0)))
        )?
    );
    let falling = segment(&rt, point(3, 60), point(70, 10));
    assert!(rt; agree(alloc, &tree, list, Probe::Pixels(falling))?);
    assert!(rt; agree(alloc, &tree, list, Probe::Above(point(81, 77)))?);
    assert!(rt; agree(alloc, &tree, list, Probe::Below(point(60, 90)))?);
    Ok(())
}

#[test]
fn small_lists_and_equal_boxes_have_trees(rt: HostRuntime) -> Result<(), Fail> {
    let alloc = rt.alloc();
    let here = Rect::spanning(point(0, 0), point(4, 2));
    for count in [0, 1, 8, 9, 65] {
        let tree = BoxTree::build(alloc, vec![in alloc; here; count]?)?;
        assert_eq!(rt;
            tree.meeting(&Probe::Box(Rect::of_point(point(4, 2))))?
                .len(),
            count
        );
        assert_eq!(rt;
            tree.meeting(&Probe::Box(Rect::of_point(point(5, 2))))?
                .len(),
            0
        );
    }
    Ok(())
}

#[test]
fn probes_are_closed_but_for_the_top(rt: HostRuntime) {
    let here = Rect::spanning(point(4, 2), point(0, 0));
    assert!(rt; Probe::Box(Rect::spanning(point(4, 2), point(9, 9))).reaches(here));
    assert!(rt; !Probe::Box(Rect::spanning(point(5, 2), point(9, 9))).reaches(here));
    assert!(rt; Probe::Above(point(8, 3)).reaches(here));
    assert!(rt; !Probe::Above(point(8, 4)).reaches(here));
    assert!(rt; !Probe::Above(point(9, 0)).reaches(here));
    assert!(rt; Probe::Below(point(0, 0)).reaches(here));
    assert!(rt; !Probe::Below(point(0, -1)).reaches(here));
    assert!(rt; !Probe::Below(point(-1, 9)).reaches(here));
}

#[test]
fn a_segment_reaches_what_is_near_its_line(rt: HostRuntime) {
    let rising = Probe::Pixels(segment(&rt, point(0, 0), point(10, 10)));
    assert!(rt; rising.reaches(Rect::of_point(point(5, 6))));
    assert!(rt; rising.reaches(Rect::spanning(point(1, 3), point(4, 6))));
    assert!(rt; !rising.reaches(Rect::spanning(point(1, 5), point(3, 8))));
    assert!(rt; !rising.reaches(Rect::spanning(point(5, 1), point(8, 3))));
    assert!(rt; !rising.reaches(Rect::spanning(point(11, 0), point(12, 20))));
}

/// A search that counts the boxes with points at or past x.
#[derive(Drop)]
struct PastX {
    x: i32,
    count: usize,
}

impl Search for PastX {
    ghost is_among = { λ s boxes. Unit {0} };

    ghost is_settled = { λ s k. Unit {0} };

    fn may_matter(&self, hull: Rect) -> bool {
        self.x <= hull.hi.x
    }

    fn visit(&mut self, _k: usize) {
        self.count = self.count.saturating_add(1);
    }
}

#[test]
fn a_search_is_shown_what_may_matter(rt: HostRuntime) -> Result<(), Fail> {
    let alloc = rt.alloc();
    let list = scattered(alloc, 100)?;
    let tree = BoxTree::build(alloc, scattered(alloc, 100)?)?;
    let mut search = PastX { x: 40, count: 0 };
    tree.search(&mut search);
    let count = list.iter().filter(|b| 40 <= b.hi.x).count();
    assert!(rt; 0 < count && count < 100);
    assert_eq!(rt; search.count, count);
    Ok(())
}

#[test]
fn a_wide_answer_is_narrowed(rt: HostRuntime) -> Result<(), Fail> {
    let alloc = rt.alloc();
    let tree = BoxTree::build(alloc, scattered(alloc, 40)?)?;
    let own = Rect::spanning(point(10, 10), point(30, 40));
    let round = own.hull(Rect::of_point(point(60, 60)));
    let wide = tree.meeting(&Probe::Box(round))?;
    let mut found = Vec::new(alloc);
    narrow_into(tree.boxes(), round, wide.as_slice(), own, &mut found)?;
    assert_eq!(rt;
        found.as_slice(),
        tree.meeting(&Probe::Box(own))?.as_slice()
    );
    assert!(rt; !found.is_empty() && found.len() < wide.len());
    Ok(())
}

#[test]
fn the_curve_takes_the_bits_in_turn(rt: HostRuntime) {
    assert_eq!(rt; curve(point(i32::MIN, i32::MIN)), 0);
    assert_eq!(rt; curve(point(0, 0)), 3 << 62);
    assert_eq!(rt; curve(point(3, 0)), (3 << 62) + 5);
    assert_eq!(rt; curve(point(0, 1)), (3 << 62) + 2);
    assert_eq!(rt; curve(point(i32::MAX, i32::MAX)), u64::MAX);
}

fn point(x: i32, y: i32) -> Coord {
    Coord { x, y }
}

/// Small boxes at places that a linear congruential generator gives.
fn scattered(alloc: Global, count: usize) -> Result<Vec<Rect>, NoMemory> {
    let mut list = Vec::new(alloc);
    let mut state = 7u32;
    for _ in 0..count {
        state = state.wrapping_mul(1_664_525).wrapping_add(1_013_904_223);
        let x = (state >> 24) as i32 % 90;
        let y = (state >> 16) as i32 % 90;
        let size = (state >> 12) as i32 % 12;
        list.push(Rect::spanning(point(x, y), point(x + size, y + 11 - size)))?;
    }
    Ok(list)
}

// Whether the tree over a list finds what a scan of the list finds.
fn agree(alloc: Global, tree: &BoxTree, list: &[Rect], probe: Probe) -> Result<bool, NoMemory>
    requires { IsProbeInRange probe }
{
    let mut scanned = Vec::new(alloc);
    for (i, b) in list.iter().enumerate() {
        if probe.reaches(*b) {
            scanned.push(i)?;
        }
    }
    Ok(tree.meeting(&probe)?.as_slice() == scanned.as_slice())
}

fn segment(rt: &impl Abort, a: Coord, b: Coord) -> Seg
    ensures { IsSegInRange result }
{
    let segment = Seg::between(a, b).expect(rt, "two different ends");
    assert!(rt; segment.lo.is_in_range() && segment.hi.is_in_range());
    segment
}
