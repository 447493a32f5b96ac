ghost use Rattle.std.specs.Prelude.{◌≡◌, ◌↔◌, ◌⊎◌, IsTrue, true, false, OnOk, Contains};
ghost use Rattle.cov_types.specs.declared.seg.Seg.{Seg};
ghost use Rattle.plane.specs.Snapping.{chain_edges};
ghost use Rattle.visvalingam.specs.Segments.{is_among, IsJoined, AreAdded, AreLeft};

use cov_types::{Coord, NoMemory, Seg};
use std::alloc::Global;
use std::collections::HashSet;

/// The current segments (`is_among` tells whether one is there).
#[derive(Drop)]
pub(crate) struct Segments {
    // The two ends of each, the lesser first.
    pub(crate) ends: HashSet<(Coord, Coord)>,
}

impl Segments {
    /// No segments.
    pub(crate) fn new(alloc: Global) -> Segments
        ensures { (e : Seg) → is_among result.ends e ≡ false }
    {
        Segments {
            ends: HashSet::new(alloc),
        }
    }

    /// Whether the segment between the two points is there.
    pub(crate) fn joins(&self, a: Coord, b: Coord) -> bool
        ensures { IsTrue result ↔ IsJoined self.now.ends a b }
    {
        match Seg::between(a, b) {
            Some(e) => self.ends.contains(&(e.lo, e.hi)),
            None => false,
        }
    }

    /// Adds the segment between two points, where they differ.
    pub(crate) fn add(&mut self, a: Coord, b: Coord) -> Result<(), NoMemory>
        ensures { OnOk result (AreAdded self.old.ends self.new.ends a b) }
    {
        if let Some(e) = Seg::between(a, b) {
            self.ends.insert((e.lo, e.hi))?;
        }
        Ok(())
    }

    /// Takes the segment between two points out.
    pub(crate) fn remove(&mut self, a: Coord, b: Coord)
        ensures { AreLeft self.old.ends self.new.ends a b }
    {
        if let Some(e) = Seg::between(a, b) {
            self.ends.remove(&(e.lo, e.hi));
        }
    }

    /// Adds the segments between neighbours of a list.
    pub(crate) fn add_chain(&mut self, points: &[Coord]) -> Result<(), NoMemory>
        ensures { OnOk result ((e : Seg) → (is_among self.new.ends e ≡ true) ↔ ((is_among self.old.ends e ≡ true) ⊎ Contains (chain_edges points.now) e)) }
    {
        for i in 1..points.len() {
            self.add(points[i - 1], points[i])?;
        }
        Ok(())
    }
}
