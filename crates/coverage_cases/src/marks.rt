ghost use Rattle.std.specs.Prelude.{◌<◌, All, length};
ghost use Rattle.cov_types.specs.Range.{IsSegInRange};

use cov_types::{Coord, Coverage, EdgeUse, LIMIT, Member, Poly, Ring, Seg, in_range, uses};
use cov_valid::{Kind, marks};
use grid_pred::{meets_badly, over_mid, over_upper};
use std::alloc::{AllocError, Global};
use std::process::Abort;
use std::test::Fail;

const SQUARE: [(i32, i32); 4] = [(0, 0), (10, 0), (10, 10), (0, 10)];

fn ring(alloc: Global, numbers: &[(i32, i32)]) -> Result<Ring, AllocError> {
    let mut points = Vec::new(alloc);
    for (x, y) in numbers {
        points.push(Coord { x: *x, y: *y })?;
    }
    Ok(Ring { points })
}

/// A member of one polygon with one ring.
fn member(alloc: Global, numbers: &[(i32, i32)]) -> Result<Member, AllocError> {
    let mut rings = Vec::new(alloc);
    rings.push(ring(alloc, numbers)?)?;
    let mut polys = Vec::new(alloc);
    polys.push(Poly { rings })?;
    Ok(Member { polys })
}

/// The marks of a coverage: of each the member, the place and the kind.
fn marked(
    alloc: Global,
    rt: &impl Abort,
    members: Vec<Member>,
) -> Result<Vec<(u32, u64, Kind)>, Fail> {
    let c = Coverage { members };
    assert!(rt; in_range(&c));
    let list: Vec<(u32, u64, Kind)> = marks(alloc, &c)?
        .iter()
        .map(|m| (m.member, m.place, m.kind))
        .collect(alloc)?;
    Ok(list)
}

#[test]
fn a_touch_marks_each_segment_that_meets_badly(rt: HostRuntime) -> Result<(), Fail> {
    let alloc = rt.alloc();
    let mut members = Vec::new(alloc);
    members.push(member(alloc, &SQUARE)?)?;
    members.push(member(alloc, &[(10, 5), (20, 0), (20, 10)])?)?;
    let wanted = [
        (0, 1, Kind::Meets),
        (1, 4, Kind::Meets),
        (1, 6, Kind::Meets),
    ];
    assert_eq!(rt; marked(alloc, &rt, members)?.as_slice(), wanted.as_slice());
    Ok(())
}

#[test]
fn a_member_within_another_is_inside(rt: HostRuntime) -> Result<(), Fail> {
    let alloc = rt.alloc();
    let mut members = Vec::new(alloc);
    members.push(member(alloc, &SQUARE)?)?;
    members.push(member(alloc, &[(2, 2), (4, 2), (4, 4), (2, 4)])?)?;
    let wanted = [
        (1, 4, Kind::Inside),
        (1, 5, Kind::Inside),
        (1, 6, Kind::Inside),
        (1, 7, Kind::Inside),
    ];
    assert_eq!(rt; marked(alloc, &rt, members)?.as_slice(), wanted.as_slice());
    Ok(())
}

#[test]
fn two_of_three_members_on_one_side_of_a_segment_are_marked(rt: HostRuntime) -> Result<(), Fail> {
    let alloc = rt.alloc();
    let mut members = Vec::new(alloc);
    members.push(member(alloc, &SQUARE)?)?;
    members.push(member(alloc, &[(10, 0), (20, 0), (20, 10), (10, 10)])?)?;
    members.push(member(alloc, &[(10, 0), (15, 5), (10, 10)])?)?;
    let wanted = [
        (1, 7, Kind::SameSide),
        (2, 8, Kind::Inside),
        (2, 9, Kind::Inside),
        (2, 10, Kind::SameSide),
    ];
    assert_eq!(rt; marked(alloc, &rt, members)?.as_slice(), wanted.as_slice());
    Ok(())
}

#[test]
fn a_ring_that_a_member_has_twice_is_repeated(rt: HostRuntime) -> Result<(), Fail> {
    let alloc = rt.alloc();
    let triangle = [(0, 0), (4, 0), (0, 3)];
    let mut rings = Vec::new(alloc);
    rings.push(ring(alloc, &triangle)?)?;
    rings.push(ring(alloc, &triangle)?)?;
    let mut polys = Vec::new(alloc);
    polys.push(Poly { rings })?;
    let mut members = Vec::new(alloc);
    members.push(Member { polys })?;
    let list = marked(alloc, &rt, members)?;
    assert_eq!(rt; list.len(), 6);
    for (i, mark) in list.iter().enumerate() {
        assert_eq!(rt; *mark, (0, i as u64, Kind::Repeated));
    }
    Ok(())
}

#[test]
fn neighbours_that_share_a_whole_segment_have_no_mark(rt: HostRuntime) -> Result<(), Fail> {
    let alloc = rt.alloc();
    let mut members = Vec::new(alloc);
    members.push(member(alloc, &SQUARE)?)?;
    members.push(member(alloc, &[(10, 0), (20, 0), (20, 10), (10, 10)])?)?;
    assert!(rt; marked(alloc, &rt, members)?.is_empty());
    Ok(())
}

// The bottom edge of the range is a segment of both members. Its midpoint shares its sweep value with the upper left corner.
#[test]
fn a_midpoint_on_the_border_of_the_range_counts_a_vertex_once(rt: HostRuntime) -> Result<(), Fail> {
    let alloc = rt.alloc();
    let mut members = Vec::new(alloc);
    members.push(member(alloc, &[(0, -LIMIT), (1, -LIMIT), (0, LIMIT)])?)?;
    members.push(member(alloc, &[(0, -LIMIT), (1, -LIMIT), (1, LIMIT)])?)?;
    let wanted = [
        (0, 0, Kind::SameSide),
        (0, 1, Kind::Meets),
        (1, 3, Kind::SameSide),
        (1, 5, Kind::Meets),
    ];
    assert_eq!(rt; marked(alloc, &rt, members)?.as_slice(), wanted.as_slice());
    Ok(())
}

// A frame with many holes, and a member that fills them: the rings stand in an order that leaps about the plane.
#[test]
fn many_holes_in_a_mixed_order_are_without_fault(rt: HostRuntime) -> Result<(), Fail> {
    let alloc = rt.alloc();
    let mut rings = Vec::new(alloc);
    let mut polys = Vec::new(alloc);
    rings.push(ring(alloc, &[(0, 0), (34, 0), (34, 22), (0, 22)])?)?;
    for i in 0..40u32 {
        rings.push(triangle_at(alloc, i.wrapping_mul(17))?)?;
        let mut filled = Vec::new(alloc);
        filled.push(triangle_at(alloc, i.wrapping_mul(23))?)?;
        polys.push(Poly { rings: filled })?;
    }
    let mut frame = Vec::new(alloc);
    frame.push(Poly { rings })?;
    let mut members = Vec::new(alloc);
    members.push(Member { polys: frame })?;
    members.push(Member { polys })?;
    let c = Coverage { members };
    assert!(rt; in_range(&c));
    let list = uses(alloc, &c)?;
    assert_eq!(rt; list.len(), 244);
    for edge in &list {
        assert!(rt; plain_kind(&list, 2, *edge).is_none());
    }
    assert!(rt; marks(alloc, &c)?.is_empty());
    Ok(())
}

/// A triangle at one of forty places, row by row.
fn triangle_at(alloc: Global, n: u32) -> Result<Ring, AllocError> {
    let column = (n % 8) as i32;
    let row = (n / 8 % 5) as i32;
    let x = column.wrapping_mul(4).wrapping_add(2);
    let y = row.wrapping_mul(4).wrapping_add(2);
    ring(
        alloc,
        &[(x, y), (x.wrapping_add(2), y), (x, y.wrapping_add(2))],
    )
}

#[test]
fn the_marks_are_those_of_the_definition_read_use_by_use(rt: HostRuntime) -> Result<(), Fail> {
    let alloc = rt.alloc();
    let mut random = Random { state: 1 };
    let mut faultless = 0usize;
    let mut kinds = [0usize; 5];
    for _ in 0..400 {
        let c = random.coverage(alloc)?;
        assert!(rt; in_range(&c));
        let list = uses(alloc, &c)?;
        let found = marks(alloc, &c)?;
        let mut next = found.iter();
        for (place, edge) in list.iter().enumerate() {
            match plain_kind(&list, c.members.len() as u32, *edge) {
                None => faultless = faultless.wrapping_add(1),
                Some(kind) => {
                    let mark = next.next().ok_or("a mark is missing")?;
                    assert_eq!(rt; (mark.member, mark.place), (edge.member, place as u64));
                    assert_eq!(rt; mark.kind, kind);
                    let at = number_of(kind);
                    kinds[at] = kinds[at].wrapping_add(1);
                }
            }
        }
        assert!(rt; next.next().is_none());
    }
    assert!(rt; faultless > 0);
    // A narrow gap is no fault.
    assert!(rt; kinds.iter().take(4).all(|count| *count > 0));
    assert_eq!(rt; kinds[4], 0);
    Ok(())
}

fn number_of(kind: Kind) -> usize
    ensures { result < 5 }
{
    match kind {
        Kind::Meets => 0,
        Kind::Repeated => 1,
        Kind::SameSide => 2,
        Kind::Inside => 3,
        Kind::NarrowGap => 4,
    }
}

// The kind of a use, read from its definition.
fn plain_kind(uses: &[EdgeUse], members: u32, edge: EdgeUse) -> Option<Kind>
    requires segments { All (λ u. IsSegInRange u.seg) uses.now }
    requires in_range { IsSegInRange edge.seg }
{
    if has_bad_contact(uses, edge.seg) {
        return Some(Kind::Meets);
    }
    if uses.iter().filter(|v| **v == edge).count() > 1 {
        return Some(Kind::Repeated);
    }
    if is_same_side(uses, edge) {
        return Some(Kind::SameSide);
    }
    if is_inside(uses, members, edge.seg) {
        return Some(Kind::Inside);
    }
    None
}

fn has_bad_contact(uses: &[EdgeUse], s: Seg) -> bool
    requires segments { All (λ u. IsSegInRange u.seg) uses.now }
    requires in_range { IsSegInRange s }
{
    for other in uses {
        if meets_badly(s, other.seg) {
            return true;
        }
    }
    false
}

fn is_same_side(uses: &[EdgeUse], edge: EdgeUse) -> bool
    requires segments { All (λ u. IsSegInRange u.seg) uses.now }
    requires in_range { IsSegInRange edge.seg }
{
    let own = holds_above(uses, edge.member, edge.seg);
    for v in uses {
        if v.member != edge.member && v.seg == edge.seg {
            if holds_above(uses, v.member, edge.seg) == own {
                return true;
            }
        }
    }
    false
}

fn is_inside(uses: &[EdgeUse], members: u32, s: Seg) -> bool
    requires segments { All (λ u. IsSegInRange u.seg) uses.now }
    requires in_range { IsSegInRange s }
{
    for member in 0..members {
        if holds_middle(uses, member, s) && !uses.iter().any(|v| *v == EdgeUse { member, seg: s }) {
            return true;
        }
    }
    false
}

fn holds_above(uses: &[EdgeUse], member: u32, s: Seg) -> bool
    requires segments { All (λ u. IsSegInRange u.seg) uses.now }
    requires in_range { IsSegInRange s }
{
    let mut holds = false;
    for u in uses {
        if over_upper(u.seg, s) {
            holds = holds != (u.member == member);
        }
    }
    holds
}

fn holds_middle(uses: &[EdgeUse], member: u32, s: Seg) -> bool
    requires segments { All (λ u. IsSegInRange u.seg) uses.now }
    requires in_range { IsSegInRange s }
{
    let mut holds = false;
    for u in uses {
        if over_mid(u.seg, s) {
            holds = holds != (u.member == member);
        }
    }
    holds
}

// A source of numbers that look random, and of small coverages: squares that share sides, a square about them, and triangles.
#[derive(Drop)]
struct Random {
    state: u32,
}

impl Random {
    fn below(&mut self, n: u32) -> u32
        requires { 0 < n }
        ensures { result < n }
    {
        self.state = self
            .state
            .wrapping_mul(1_664_525)
            .wrapping_add(1_013_904_223);
        self.state / 65536 % n
    }

    fn coverage(&mut self, alloc: Global) -> Result<Coverage, AllocError> {
        let mut members = Vec::new(alloc);
        for _ in 0..2 + self.below(3) {
            let mut polys = Vec::new(alloc);
            for _ in 0..1 + self.below(2) {
                polys.push(self.poly(alloc)?)?;
            }
            members.push(Member { polys })?;
        }
        Ok(Coverage { members })
    }

    fn poly(&mut self, alloc: Global) -> Result<Poly, AllocError> {
        let mut rings = Vec::new(alloc);
        for _ in 0..1 + self.below(2) {
            rings.push(self.ring(alloc)?)?;
        }
        Ok(Poly { rings })
    }

    fn ring(&mut self, alloc: Global) -> Result<Ring, AllocError> {
        match self.below(8) {
            0 => ring(alloc, &[(-1, -1), (5, -1), (5, 5), (-1, 5)]),
            1 => self.triangle(alloc),
            _ => {
                let x = self.below(3) as i32;
                let y = self.below(3) as i32;
                let right = x.wrapping_add(1);
                let top = y.wrapping_add(1);
                ring(alloc, &[(x, y), (right, y), (right, top), (x, top)])
            }
        }
    }

    fn triangle(&mut self, alloc: Global) -> Result<Ring, AllocError> {
        let mut points = Vec::new(alloc);
        for _ in 0..3 {
            points.push(Coord {
                x: self.below(5) as i32,
                y: self.below(5) as i32,
            })?;
        }
        Ok(Ring { points })
    }
}
