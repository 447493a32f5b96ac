ghost use Rattle.std.specs.Prelude.{◌≡◌, ℕ, ◌*◌, ◌+◌, ◌/◌, ◌<◌, not, length, List, Some, slice_get, IfOk};
ghost use Rattle.cov_types.specs.declared.seg.Seg.{Seg};
ghost use Rattle.plane.specs.Joined.{Joined};
ghost use Rattle.plane.specs.Point.{Point};
ghost use Rattle.plane.specs.Region.{IsSide};
ghost use Rattle.sector_laws.specs.Sector.{HalfEdge, origin, target, twin, is_before_by_angle, IsHalfEdge, IsNext, IsNextNumber, IsPlanar, AreDistinct};
ghost use Rattle.half_edge.specs.Arena.{IsArena};
ghost use Rattle.half_edge.specs.Side.{across};

use crate::departure::departures_in_order;
use crate::directed::directed;
use crate::direction::Direction;
use crate::next::next_table;
use crate::side::Side;
use cov_types::{Coord, NoMemory, Seg};
use std::alloc::Global;
use std::marker::Model;

/// The half-edges of a list of edges. Half-edge 2k runs along edge k from lo to hi and has side 2k on its left; half-edge 2k + 1 runs
/// back and has side 2k + 1 on its left. A contract sees an arena as the list of its edges.
#[derive(Drop)]
pub struct Arena {
    edges: Vec<Seg>,
    next: Vec<Side>,
}

impl Model for Arena {
    ghost Value = { List Seg };

    ghost view = { λ a. a.edges.items };

    ghost invariant = { λ a. IsArena a.edges.items a.next.items };
}

impl Arena {
    /// The arena of the edges, in n log n time and linear memory: it numbers the vertices by hashing, sorts the half-edges that
    /// leave each vertex by direction, and links them in that order.
    pub fn build(alloc: Global, edges: Vec<Seg>) -> Result<Arena, NoMemory>
        requires planar { IsPlanar edges.items }
        requires distinct { AreDistinct edges.items }
        ensures { IfOk result (λ a. a ≡ edges.items) }
    {
        let departures = departures_in_order(alloc, &edges)?;
        let next = next_table(alloc, &edges, &departures)?;
        Ok(Arena { edges, next })
    }

    /// How many half-edges there are. Takes constant time.
    pub fn len(&self) -> usize
        ensures count { result ≡ 2 * length self.now }
        ensures planar { IsPlanar self.now }
        ensures distinct { AreDistinct self.now }
    {
        self.next.len()
    }

    /// The edges, in the order in which they were given. Takes constant time.
    pub fn edges(&self) -> &[Seg]
        ensures edges { result.now ≡ self.now }
        ensures planar { IsPlanar self.now }
        ensures distinct { AreDistinct self.now }
    {
        &self.edges
    }

    /// The half-edge of the same edge in the other direction. Takes constant time.
    pub fn twin(&self, h: usize) -> usize
        requires within { h < 2 * length self.now }
        ensures within { result < 2 * length self.now }
        ensures across { result ≡ across h }
        ensures opposite { (g : HalfEdge) → IsHalfEdge self.now h g → IsHalfEdge self.now result (twin g) }
    {
        Side::of_number(h).twin().number()
    }

    /// The vertex where the half-edge begins. Takes constant time.
    pub fn origin(&self, h: usize) -> Coord
        requires within { h < 2 * length self.now }
        ensures { (g : HalfEdge) → IsHalfEdge self.now h g → result ≡ origin g }
    {
        directed(&self.edges, Side::of_number(h)).origin()
    }

    /// The half-edge that follows it round the region on its left. At a dead end it is the twin. Takes constant time.
    pub fn next(&self, h: usize) -> usize
        requires within { h < 2 * length self.now }
        ensures within { result < 2 * length self.now }
        ensures next { IsNextNumber self.now h result }

        // The only one that follows it, and it follows no other.
        ensures only { (m : ℕ) → IsNextNumber self.now h m → m ≡ result }
        ensures one_to_one { (k : ℕ) → IsNextNumber self.now k result → k ≡ h }

        // It begins where the half-edge ends, and goes on round the same region.
        ensures begins { (f g : HalfEdge) → IsHalfEdge self.now h f → IsHalfEdge self.now result g → origin g ≡ target f }
        ensures joined { (p q : Point) → IsSide self.now h p → IsSide self.now result q → Joined self.now p q }
    {
        self.next[h].number()
    }

    /// Whether the way straight down the ray is in the sector on the left, between the half-edge and the one that follows it.
    /// Takes constant time.
    pub fn opens_down(&self, h: usize) -> bool
        requires within { h < 2 * length self.now }
        ensures { (f g : HalfEdge) → IsHalfEdge self.now h f → IsNext self.now f g → result ≡ not (is_before_by_angle g (twin f)) }
    {
        let next = Direction {
            of: directed(&self.edges, self.next[h]),
        };
        let back = Direction {
            of: directed(&self.edges, Side::of_number(h).twin()),
        };
        next >= back
    }

    /// The edge of the half-edge. Takes constant time.
    pub fn edge(&self, h: usize) -> Seg
        requires within { h < 2 * length self.now }
        ensures { slice_get self.now (h / 2) ≡ Some result }
    {
        self.edges[Side::of_number(h).edge()]
    }
}
