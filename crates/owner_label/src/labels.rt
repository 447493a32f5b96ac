ghost use Rattle.std.specs.Prelude.{◌≡◌, ℕ, ◌*◌, ◌<◌, ◌≤◌, ◌^◌, length, [], All, IfOk, IfSome, Some, slice_get, slice_index, unsigned_abs};
ghost use Rattle.cov_types.specs.Uses.{HasEvenEnds};
ghost use Rattle.cov_types.specs.declared.seg.Seg.{Seg};
ghost use Rattle.plane.specs.Label.{label_at};
ghost use Rattle.plane.specs.Parity.{member_holds};
ghost use Rattle.plane.specs.Point.{Point};
ghost use Rattle.plane.specs.Region.{IsRegionOf, IsOuterRegion, IsSide};
ghost use Rattle.half_edge.specs.Side.{across};
ghost use Rattle.arrangement.specs.Measure.{member_area2, region_area2, border, owned_border};
ghost use Rattle.arrangement.specs.Noding.{odd_uses};
ghost use Rattle.arrangement.specs.Overlay.{Overlay, IsRegion, label_of, region_at, AreBeside};
ghost use Rattle.owner_label.specs.Labelled.{IsOverlay, owner_in};
ghost use Rattle.owner_label.specs.OwnedSides.{IsOwnedSide, length_by_any, owned_length};
ghost use Rattle.owner_label.specs.Sides.{pair_gain, side_length, is_single, is_owned};

use crate::label_table::LabelTable;
use crate::measure::{area_of_side, length_of_side, odd_of, trapezoid_of};
use crate::owned_side::OwnedSide;
use crate::sided::SidedEdges;
use crate::spread::labels_of_regions;
use arrangement::OddUse;
use counting_sort::Grouped;
use cov_types::{NoMemory, Seg};
use face_walk::Regions;
use half_edge::{Arena, Side};
use snap_noder::LiveEdges;
use std::alloc::Global;
use std::marker::Model;

/// The overlay labels of regions: which members hold their points. They borrow the edges, the odd pairs and the regions that they were
/// built of. A contract sees the edges and the odd pairs.
#[derive(Drop)]
pub struct Labels<'a> {
    edges: &'a [Seg],
    odd: &'a [OddUse],
    regions: &'a Regions<'a>,
    // By the number of the region; empty where a number is no region's.
    labels: LabelTable,
    // By the number of the region.
    sides: Grouped,
}

impl<'a> Model for Labels<'a> {
    ghost use Rattle.owner_label.specs.Labelled.{Labelled};
    ghost use Rattle.owner_label.specs.Lists.{AreLabels};

    ghost Value = { Labelled };

    ghost view = { λ l. record { edges = l.edges.now; odd = l.odd.now } };

    ghost invariant = { λ l. AreLabels (record { edges = l.edges.now; odd = l.odd.now }) l.regions.now l.labels l.sides };
}

impl<'a> Labels<'a> {
    /// The labels of the regions between the live edges. The outer region has the empty label, and over each edge the members change
    /// that are odd for it. Takes time and memory in proportion to the edges, the odd pairs and the lengths of the labels.
    pub fn build(
        alloc: Global,
        a: &'a Arena,
        r: &'a Regions<'a>,
        l: &'a LiveEdges,
    ) -> Result<Labels<'a>, NoMemory>
        requires arena { a.now ≡ l.now.edges.items }
        requires regions { r.now ≡ a.now }
        requires even { HasEvenEnds (odd_uses l.now.edges.items l.now.odd.items) }
        ensures { IfOk result (λ labels. labels ≡ record { edges = l.now.edges.items; odd = l.now.odd.items }) }
    {
        let map = SidedEdges::build(r, l);
        let sides = Grouped::build(alloc, map.regions(), 2 * map.len())?;
        let labels = labels_of_regions(alloc, &map, &sides, r.outer())?;
        Ok(Labels {
            edges: a.edges(),
            odd: &l.odd,
            regions: r,
            labels,
            sides,
        })
    }

    /// The members that hold the points of the region, ascending. Takes constant time.
    pub fn label(&self, region: usize) -> &[u32]
        requires region { IsRegion self.now.edges region }
        ensures label { (o : Overlay) → IsOverlay self.now o → result.now ≡ label_of o region }
        ensures points { (o : Overlay) (p : Point) → IsOverlay self.now o → IsRegionOf self.now.edges p region → result.now ≡ label_at o.uses o.members p }
        ensures outer { IsOuterRegion self.now.edges region → result.now ≡ [] }

        // There is such an overlay.
        ensures some { (o : Overlay) × IsOverlay self.now o }

        // It differs from the label of each region over an edge.
        ensures sides { (o : Overlay) (other : ℕ) → IsOverlay self.now o → AreBeside o region other → ¬ (label_of o other ≡ result.now) }
    {
        self.labels.label(region)
    }

    /// The doubled area of a member, in square grid units, over its odd edges. Takes time in proportion to these, and to the
    /// logarithm of the odd pairs.
    pub fn area2(&self, member: u32) -> i128
        ensures { result ≡ member_area2 (odd_uses self.now.edges self.now.odd) member }
    {
        let mut area = 0;
        for o in odd_of(self.odd, member) {
            area += self.gain(*o);
        }
        area
    }

    /// The doubled area of a region that is not outer, in square grid units. Takes time in proportion to its sides.
    pub fn region_area2(&self, region: usize) -> i128
        requires region { IsRegion self.now.edges region }
        ensures { (o : Overlay) → IsOverlay self.now o → result ≡ region_area2 o region }
    {
        let mut area = 0;
        for side in self.sides.group(region) {
            area += area_of_side(self.edges, Side::of_number(*side));
        }
        area
    }

    /// The border of the region with a member, in 1/256 units: the length shared with the regions that are labelled with it alone. Takes
    /// time in proportion to the sides of the region.
    pub fn border(&self, region: usize, member: u32) -> u128
        requires region { IsRegion self.now.edges region }
        ensures { (o : Overlay) → IsOverlay self.now o → result ≡ border o region member }
    {
        let mut border = 0;
        for side in self.sides.group(region) {
            border += self.length_if_single(Side::of_number(*side), member);
        }
        border
    }

    /// The owned border of the region with a member, in 1/256 units: the length shared with the regions that have a label and are owned
    /// by the member. There is one owner for each side, read at the numbers of regions. Takes time in proportion to the sides of the
    /// region.
    pub fn border_by(&self, region: usize, owners: &[Option<u32>], member: u32) -> u128
        requires region { IsRegion self.now.edges region }
        requires owners { length owners.now ≡ 2 * length self.now.edges }
        ensures { (o : Overlay) → IsOverlay self.now o → result ≡ owned_border o (owner_in owners.now) region member }
    {
        let mut border = 0;
        for side in self.sides.group(region) {
            border += self.length_if_owned(Side::of_number(*side), owners, member);
        }
        border
    }

    /// The sides of the region beyond which a region with a label has an owner, each with that owner and its length. So the lengths of the
    /// sides of one owner add up to the owned border with it. There is one owner for each side, read at the numbers of regions. Takes
    /// time and memory in proportion to the sides of the region.
    pub fn owned_sides(
        &self,
        alloc: Global,
        region: usize,
        owners: &[Option<u32>],
    ) -> Result<Vec<OwnedSide>, NoMemory>
        requires region { IsRegion self.now.edges region }
        requires owners { length owners.now ≡ 2 * length self.now.edges }
        ensures borders { IfOk result (λ v. (o : Overlay) (member : ℕ) → IsOverlay self.now o → owned_length v.items member ≡ owned_border o (owner_in owners.now) region member) }
        ensures each { IfOk result (λ v. All (IsOwnedSide owners.now) v.items) }
    {
        let mut list = Vec::new(alloc);
        for side in self.sides.group(region) {
            if let Some(owned) = self.owned_side(Side::of_number(*side), owners) {
                list.push(owned)?;
            }
        }
        Ok(list)
    }

    // The side with the owner of the region across it, where that has a label and an owner.
    fn owned_side(&self, side: Side, owners: &[Option<u32>]) -> Option<OwnedSide>
        requires within { side.number < 2 * length self.now.edges }
        requires owners { length owners.now ≡ 2 * length self.now.edges }
        ensures exact { (o : Overlay) (member : ℕ) → IsOverlay self.now o → length_by_any member result ≡ side_length o (is_owned o (owner_in owners.now) member) side.number }
        ensures each { IfSome result (IsOwnedSide owners.now) }
    {
        if self.label_across(side).is_empty() {
            return None;
        }
        match owners[self.region_across(side)] {
            Some(member) => Some(OwnedSide {
                member,
                length: length_of_side(self.edges, side),
            }),
            None => None,
        }
    }

    // The length of the side, if the region across it has a label and is owned by the member.
    fn length_if_owned(&self, side: Side, owners: &[Option<u32>], member: u32) -> u128
        requires within { side.number < 2 * length self.now.edges }
        requires owners { length owners.now ≡ 2 * length self.now.edges }
        ensures exact { (o : Overlay) → IsOverlay self.now o → result ≡ side_length o (is_owned o (owner_in owners.now) member) side.number }
        ensures small { result < 2 ^ 64 }
    {
        match self.owned_side(side, owners) {
            Some(owned) => {
                if owned.member == member {
                    owned.length
                } else {
                    0
                }
            }
            None => 0,
        }
    }

    // What an odd pair adds to the doubled area of its member: the trapezoid of its edge where the member holds the lower side, less that
    // where it holds the upper side.
    fn gain(&self, o: OddUse) -> i128
        requires within { o.edge < length self.now.edges }
        ensures exact { (e : Seg) → slice_get self.now.edges o.edge ≡ Some e → result ≡ pair_gain (odd_uses self.now.edges self.now.odd) o.member o.member e }
        ensures small { unsigned_abs result ≤ 2 ^ 60 }
    {
        let area = trapezoid_of(self.edges, o.edge);
        let below = self.holds(Side::lower(o.edge), o.member);
        let above = self.holds(Side::upper(o.edge), o.member);
        if below == above {
            return 0;
        }
        if below { area } else { -area }
    }

    // Whether the member holds the side point of the side.
    fn holds(&self, side: Side, member: u32) -> bool
        requires within { side.number < 2 * length self.now.edges }
        ensures { (p : Point) → IsSide self.now.edges side.number p → result ≡ member_holds (odd_uses self.now.edges self.now.odd) member p }
    {
        self.labels
            .label(self.regions.region_of(side.number()))
            .contains(&member)
    }

    // The length of the side, if the region across it is labelled with the member alone.
    fn length_if_single(&self, side: Side, member: u32) -> u128
        requires within { side.number < 2 * length self.now.edges }
        ensures exact { (o : Overlay) → IsOverlay self.now o → result ≡ side_length o (is_single o member) side.number }
        ensures small { result < 2 ^ 64 }
    {
        if self.label_across(side) == [member].as_slice() {
            return length_of_side(self.edges, side);
        }
        0
    }

    // The label of the region on the other side of the edge.
    fn label_across(&self, side: Side) -> &[u32]
        requires within { side.number < 2 * length self.now.edges }
        ensures { (o : Overlay) → IsOverlay self.now o → result.now ≡ label_of o (region_at o (across side.number)) }
    {
        self.labels.label(self.region_across(side))
    }

    // The region on the other side of the edge.
    fn region_across(&self, side: Side) -> usize
        requires within { side.number < 2 * length self.now.edges }
        ensures within { result < 2 * length self.now.edges }
        ensures across { (o : Overlay) → IsOverlay self.now o → result ≡ region_at o (across side.number) }
    {
        self.regions.region_of(side.twin().number())
    }
}
