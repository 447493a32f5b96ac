ghost use Rattle.std.specs.Prelude.{◌≡◌, ◌<◌, All, AllPairs, Contains, IfOk, length, map, ◌↔◌};
ghost use Rattle.box_tree.specs.Places.{places};
ghost use Rattle.box_tree.specs.Rect.{IsInside, box_of_point, box_of_segment, is_touching};
ghost use Rattle.cov_types.specs.Range.{IsInRange, IsSegInRange};
ghost use Rattle.plane.specs.Snapping.{IsChain};
ghost use Rattle.rounding_laws.specs.Formulas.{ComesFirst};
ghost use Rattle.hot_pixel.specs.Centres.{AreAllMet, AreMet};
ghost use Rattle.hot_pixel.specs.HotSet.{segs_of};
ghost use Rattle.hot_pixel.specs.Near.{is_inside};

use crate::centres::hot_centres;
use crate::passing::meets;
use box_tree::{BoxTree, Probe, Rect};
use cov_types::{Coord, EdgeUse, NoMemory, Seg};
use std::alloc::Global;
use std::cmp::Reverse;
use std::marker::Model;

/// The hot pixels of a list of segments. A contract sees it as that list.
#[derive(Drop)]
pub struct HotSet {
    segs: Vec<Seg>,
    // The centres of the hot pixels, near ones near in the list.
    centres: Vec<Coord>,
    // A tree over the centres.
    tree: BoxTree,
    // The numbers of the centres in a box: those that were gathered.
    round: Rect,
    near: Vec<usize>,
}

// The most centres that are looked at for a segment without a query of its own.
const MOST_GATHERED: usize = 64;

impl Model for HotSet {
    ghost use Rattle.std.specs.Prelude.{◌≡◌, List, map};
    ghost use Rattle.box_tree.specs.Places.{places};
    ghost use Rattle.box_tree.specs.Rect.{box_of_point, is_touching};
    ghost use Rattle.cov_types.specs.declared.seg.Seg.{Seg};
    ghost use Rattle.hot_pixel.specs.Centres.{AreHotCentres};

    ghost Value = { List Seg };

    ghost view = { λ hot. hot.segs.items };

    ghost invariant = { λ hot. AreHotCentres hot.segs.items hot.centres.items × (hot.tree ≡ map box_of_point hot.centres.items) × (hot.near.items ≡ places (is_touching hot.round) 0 hot.tree) };
}

impl HotSet {
    /// The hot pixels of the segments of these uses. Takes n log n time in the number of uses and crossings, and besides the pairs of
    /// distinct segments whose boxes touch; memory in proportion to the uses and crossings.
    pub fn build(alloc: Global, list: &[EdgeUse]) -> Result<HotSet, NoMemory>
        requires { All (λ u. IsSegInRange u.seg) list.now }
        ensures { IfOk result (λ hot. hot ≡ segs_of list.now) }
    {
        let segs = segments(alloc, list)?;
        let centres = hot_centres(alloc, segs.as_slice())?;
        let tree = BoxTree::build(alloc, boxes_of(alloc, centres.as_slice())?)?;
        let round = Rect::of_point(Coord { x: 0, y: 0 });
        let near = tree.meeting(&Probe::Box(round))?;
        Ok(HotSet {
            segs,
            centres,
            tree,
            round,
            near,
        })
    }

    /// Gathers the centres near the segments of these uses with one query, where they are few, so that until the next call their chains
    /// are found without one. No chain depends on it. Takes time in proportion to the centres in the box about the segments and to the
    /// logarithm of all.
    pub fn gather(&mut self, uses: &[EdgeUse]) -> Result<(), NoMemory>
        requires { 0 < length uses.now }
        ensures { self.new ≡ self.old }
    {
        let round = box_about(uses);
        let near = self.tree.meeting(&Probe::Box(round))?;
        if near.len() <= MOST_GATHERED {
            self.round = round;
            self.near = near;
        }
        Ok(())
    }

    /// The chain of a segment, listed or not: the centres of the hot pixels that it meets, in the order from lo to hi. Takes time in
    /// proportion to the centres near the segment and to the logarithm of all, and n log n in the length of the chain; memory in
    /// proportion to the centres near it.
    pub fn chain(&self, s: Seg) -> Result<Vec<Coord>, NoMemory>
        requires { IsSegInRange s }
        ensures { IfOk result (λ chain. IsChain self.now s chain.items) }
    {
        let mut chain = all_met(
            *self.centres.allocator(),
            &self.tree,
            self.centres.as_slice(),
            self.round,
            self.near.as_slice(),
            s,
        )?;
        sort_along(s, &mut chain);
        Ok(chain)
    }
}

fn segments(alloc: Global, list: &[EdgeUse]) -> Result<Vec<Seg>, NoMemory>
    ensures { IfOk result (λ segs. segs.items ≡ segs_of list.now) }
{
    let segs = list.iter().map(|u| u.seg).collect(alloc)?;
    Ok(segs)
}

fn boxes_of(alloc: Global, centres: &[Coord]) -> Result<Vec<Rect>, NoMemory>
    ensures { IfOk result (λ boxes. boxes.items ≡ map box_of_point centres.now) }
{
    let boxes = centres.iter().map(|r| Rect::of_point(*r)).collect(alloc)?;
    Ok(boxes)
}

// Of the centres with these numbers, those whose pixels the segment meets.
fn met_centres(
    alloc: Global,
    s: Seg,
    centres: &[Coord],
    near: &[usize],
) -> Result<Vec<Coord>, NoMemory>
    requires { All (λ k. k < length centres.now) near.now }
    ensures { IfOk result (λ met. AreMet s centres.now near.now met.items) }
{
    let mut met = Vec::new(alloc);
    for k in near {
        let r = centres[*k];
        if meets(s, r) {
            met.push(r)?;
        }
    }
    Ok(met)
}

// A box about the segments of uses. Only the time of a query depends on it.
fn box_about(uses: &[EdgeUse]) -> Rect
    requires { 0 < length uses.now }
{
    let mut round = Rect::of_segment(uses[0].seg);
    for u in uses {
        round = round.hull(Rect::of_segment(u.seg));
    }
    round
}

// Whether the first box is inside the second.
fn is_inside(a: Rect, b: Rect) -> bool
    ensures { result ≡ is_inside a b }
{
    (b.lo.x <= a.lo.x) & (a.hi.x <= b.hi.x) & (b.lo.y <= a.lo.y) & (a.hi.y <= b.hi.y)
}

// The centres that the segment meets, where those in the box round have the numbers near.
fn all_met(
    alloc: Global,
    tree: &BoxTree,
    centres: &[Coord],
    round: Rect,
    near: &[usize],
    s: Seg,
) -> Result<Vec<Coord>, NoMemory>
    requires in_range { IsSegInRange s }
    requires boxed { tree.now ≡ map box_of_point centres.now }
    requires near { near.now ≡ places (is_touching round) 0 tree.now }
    ensures { IfOk result (λ met. AreAllMet s centres.now met.items) }
{
    if is_inside(Rect::of_segment(s), round) {
        return met_in_box(alloc, centres, round, near, s);
    }
    met_by_query(alloc, tree, centres, s)
}

fn met_in_box(
    alloc: Global,
    centres: &[Coord],
    round: Rect,
    near: &[usize],
    s: Seg,
) -> Result<Vec<Coord>, NoMemory>
    requires inside { IsInside (box_of_segment s) round }
    requires near { near.now ≡ places (is_touching round) 0 (map box_of_point centres.now) }
    ensures { IfOk result (λ met. AreAllMet s centres.now met.items) }
{
    let met = met_centres(alloc, s, centres, near)?;
    Ok(met)
}

fn met_by_query(
    alloc: Global,
    tree: &BoxTree,
    centres: &[Coord],
    s: Seg,
) -> Result<Vec<Coord>, NoMemory>
    requires in_range { IsSegInRange s }
    requires boxed { tree.now ≡ map box_of_point centres.now }
    ensures { IfOk result (λ met. AreAllMet s centres.now met.items) }
{
    let near = tree.meeting(&Probe::Pixels(s))?;
    let met = met_centres(alloc, s, centres, near.as_slice())?;
    Ok(met)
}

// Puts centres in the order in which the segment passes their pixels, each once.
fn sort_along(s: Seg, centres: &mut Vec<Coord>)
    ensures same { (r : Coord) → Contains centres.new.items r ↔ Contains centres.old.items r }
    ensures order { AllPairs (ComesFirst s) centres.new.items }
{
    if s.hi.y < s.lo.y {
        centres.sort_unstable_by_key(|r| (r.x, Reverse(r.y)));
    } else {
        centres.sort_unstable();
    }
    centres.dedup();
}
