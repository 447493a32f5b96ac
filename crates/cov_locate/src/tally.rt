ghost use Rattle.std.specs.Prelude.{◌≡◌, ◌<◌, All, MatchOption, if◌then◌else◌, length, map};
ghost use Rattle.box_tree.specs.Rect.{box_of_segment};
ghost use Rattle.cov_types.specs.Range.{IsInRange, IsSegInRange};
ghost use Rattle.cov_types.specs.Rings.{IsRing};
ghost use Rattle.cov_locate.specs.Blocks.{AreBlocks};
ghost use Rattle.cov_locate.specs.Near.{AreNear};
ghost use Rattle.cov_locate.specs.Rings.{IsInOrder};
ghost use Rattle.cov_locate.specs.Tally.{IsToldWith, counted, nothing_told};
ghost use Rattle.cov_locate.specs.Where.{IsOnEdge, IsWhere};

use crate::holder::settled;
use crate::near::NearRing;
use crate::place::Where;
use crate::run::blocks_hold;
use cov_types::{Coord, Outline};

/// The member whose rings are being counted, and whether an odd number of them holds the point; once it is settled, it is the least
/// member that holds the point.
#[derive(Clone, Copy)]
pub struct Tally {
    pub settled: bool,
    pub member: u32,
    pub odd: bool,
}

/// The first so many rings are told, and this is their tally.
#[derive(Clone, Copy)]
pub struct Told {
    pub passed: usize,
    pub tally: Tally,
}

/// Where the point lies, by the rings near it.
pub fn place_among(outline: &Outline, near: &[NearRing], p: Coord) -> Where
    requires uses_in_range { All (λ u. IsSegInRange u.seg) outline.now.uses.items }
    requires in_order { IsInOrder outline.now }
    requires point { IsInRange p }
    requires near { AreNear outline.now.uses.items outline.now.rings.items p 0 near.now }
    ensures { IsWhere outline.now.uses.items p result }
{
    let mut so_far = nothing_told();
    for ring in near {
        so_far = match told_with(outline, ring, p, so_far) {
            Some(next) => next,
            None => return Where::Edge,
        };
    }
    settled(so_far.tally.member, so_far.tally.odd)
}

// No ring yet.
fn nothing_told() -> Told
    ensures { result ≡ nothing_told }
{
    Told {
        passed: 0,
        tally: Tally {
            settled: false,
            member: 0,
            odd: false,
        },
    }
}

// What is told with one ring more, if that was not told before; None where the point is on a segment of it.
fn told_with(outline: &Outline, ring: &NearRing, p: Coord, so_far: Told) -> Option<Told>
    requires uses_in_range { All (λ u. IsSegInRange u.seg) outline.now.uses.items }
    requires ring { IsRing outline.now.uses.items outline.now.starts.items ring.now.run }
    requires number { ring.now.number < length outline.now.rings.items }
    requires point { IsInRange p }
    requires blocks { AreBlocks (map (λ u. box_of_segment u.seg) outline.now.uses.items) ring.now.run.from ring.now.run.to p ring.now.blocks.items }
    ensures { MatchOption result (IsOnEdge outline.now.uses.items p) (λ next. IsToldWith outline.now.uses.items ring.now p so_far next) }
{
    if ring.number < so_far.passed {
        return Some(so_far);
    }
    let holds = blocks_hold(outline, ring.run, &ring.blocks, p)?;
    Some(Told {
        passed: ring.number + 1,
        tally: with_ring(so_far.tally, ring.run.member, holds),
    })
}

// The tally with one ring more of the owner, that may hold the point.
fn with_ring(tally: Tally, owner: u32, holds: bool) -> Tally
    ensures { result ≡ (if holds then counted tally owner else tally) }
{
    if holds { counted(tally, owner) } else { tally }
}

// The tally with one ring more of the owner that holds the point.
fn counted(tally: Tally, owner: u32) -> Tally
    ensures { result ≡ counted tally owner }
{
    if tally.settled {
        return tally;
    }
    if owner == tally.member {
        return Tally {
            odd: !tally.odd,
            ..tally
        };
    }
    if tally.odd {
        return Tally {
            settled: true,
            ..tally
        };
    }
    Tally {
        settled: false,
        member: owner,
        odd: true,
    }
}
