ghost use Rattle.std.specs.Prelude.{◌≡◌, ℕ, ◌*◌, ◌<◌, ◌≤◌, ◌==◌, ◌↔◌, [], length, slice_get, slice_index, option_map, count_by, List, IfOk, IfSome, IsNone};
ghost use Rattle.cov_types.specs.declared.seg.Seg.{Seg};
ghost use Rattle.plane.specs.Joined.{Joined};
ghost use Rattle.plane.specs.Label.{numbers_below};
ghost use Rattle.plane.specs.Point.{Point};
ghost use Rattle.plane.specs.Region.{IsSide, IsOuter, IsRegionOf, IsOuterRegion, AreRegions};
ghost use Rattle.sector_laws.specs.Sector.{IsPlanar, AreDistinct};
ghost use Rattle.face_walk.specs.Numbers.{AreLeastSides, IsNumberTable};

use crate::cycle::{Cycles, boundary_cycles};
use crate::links::links;
use components::components;
use cov_types::{NoMemory, Seg};
use half_edge::Arena;
use std::alloc::Global;
use std::marker::Model;

/// The regions of the plane between the edges of an arena, each with the number of its least side. Side 2k is the upper side of edge k,
/// side 2k + 1 its lower side. A contract sees them as the list of edges of the arena that they were built of.
#[derive(Drop)]
pub struct Regions<'a> {
    edges: &'a [Seg],
    // For each side the least side of its region.
    least: Vec<usize>,
    // The least side of the outer region.
    outer: Option<usize>,
}

impl<'a> Model for Regions<'a> {
    ghost Value = { List Seg };

    ghost view = { λ r. r.edges.now };

    ghost invariant = { λ r. IsNumberTable r.edges.now r.least.items r.outer };
}

impl<'a> Regions<'a> {
    /// The regions between the edges of the arena, which they borrow. Takes linear memory and, for n edges in few connected pieces, linear
    /// time. Many pieces take n log n time in all, and a search for the nearest edge below each (`BoxTree::search`): the logarithm of n
    /// where edges are short and apart, and up to n where long edges cover each other's boxes.
    pub fn build(alloc: Global, a: &'a Arena) -> Result<Regions<'a>, NoMemory>
        ensures { IfOk result (λ r. r ≡ a.now) }
    {
        let edges = a.edges();
        let cycles = boundary_cycles(alloc, a)?;
        let links = links(alloc, a, &cycles)?;
        // A node for each cycle, and one for the place past the range.
        let past_range = cycles.list.len();
        let connected = components(alloc, past_range + 1, &links)?;
        let least = least_sides(alloc, &cycles, &connected)?;
        let outer = least_side(&cycles, connected[past_range]);
        Ok(Regions {
            edges,
            least,
            outer,
        })
    }

    /// The region of a side: the least side whose side point is joined with its own. Takes constant time.
    pub fn region_of(&self, side: usize) -> usize
        requires within { side < 2 * length self.now }
        ensures within { result < 2 * length self.now }
        ensures no_later { result ≤ side }
        ensures region { (p : Point) → IsSide self.now side p → IsRegionOf self.now p result }

        // Another side has this region exactly where its side point is joined with that of this one.
        ensures joined { (other : ℕ) (p q : Point) → IsSide self.now side p → IsSide self.now other q → IsRegionOf self.now q result ↔ Joined self.now p q }
        ensures numbering { (numbers : List ℕ) → AreRegions self.now numbers → result ≡ slice_index numbers side }
    {
        self.least[side]
    }

    /// The region of each side, by the number of the side. Takes constant time.
    pub fn numbers(&self) -> &[usize]
        ensures regions { AreRegions self.now result.now }
        ensures no_later { (n : ℕ) → n < 2 * length self.now → slice_index result.now n ≤ n }

        // The edges are those of an arena.
        ensures planar { IsPlanar self.now }
        ensures distinct { AreDistinct self.now }
    {
        &self.least
    }

    /// The region round everything; None where there is no edge. Takes constant time.
    pub fn outer(&self) -> Option<usize>
        ensures none { IsNone result ↔ (self.now ≡ []) }
        ensures outer { IfSome result (λ r. IsOuterRegion self.now r) }

        // It is the region of each outer point, and so of its own side point, and no other region is outer.
        ensures region { IfSome result (λ r. (p : Point) → IsOuter self.now p → IsRegionOf self.now p r) }
    {
        self.outer
    }

    /// How many regions have a side. Takes time in proportion to the edges.
    pub fn count(&self) -> usize
        ensures count { (numbers : List ℕ) → AreRegions self.now numbers → result ≡ count_by (λ n. slice_index numbers n == n) (numbers_below (2 * length self.now)) }

        // The regions have numbers, and the edges are those of an arena.
        ensures numbered { (numbers : List ℕ) × AreRegions self.now numbers }
        ensures planar { IsPlanar self.now }
        ensures distinct { AreDistinct self.now }
    {
        let mut count = 0;
        for side in 0..self.least.len() {
            if self.least[side] == side {
                count += 1;
            }
        }
        count
    }
}

// For each side the least side of the cycles that links connect its cycle with.
fn least_sides(alloc: Global, cycles: &Cycles, connected: &[usize]) -> Result<Vec<usize>, NoMemory>
    requires within { (n : ℕ) → n < length cycles.now.of.items → slice_index cycles.now.of.items n < length connected.now }
    requires some { (n : ℕ) → n < length cycles.now.of.items → slice_index connected.now (slice_index cycles.now.of.items n) < length cycles.now.list.items }
    ensures { IfOk result (λ v. AreLeastSides cycles.now.of.items cycles.now.list.items connected.now v.items) }
{
    let mut least = Vec::new(alloc);
    for cycle in &cycles.of {
        least.push(cycles.list[connected[*cycle]].least)?;
    }
    Ok(least)
}

// The least side of the cycle at the place, if there is one.
fn least_side(cycles: &Cycles, place: usize) -> Option<usize>
    ensures { result ≡ option_map (λ c. c.least) (slice_get cycles.now.list.items place) }
{
    if place < cycles.list.len() {
        Some(cycles.list[place].least)
    } else {
        None
    }
}
