ghost use Rattle.std.specs.Prelude.{◌≡◌, ℕ, ◌*◌, ◌<◌, ◌^◌, List, length, Some, slice_get};
ghost use Rattle.cov_types.specs.declared.seg.Seg.{Seg as Edge};
ghost use Rattle.arrangement.specs.Overlay.{Overlay};
ghost use Rattle.greedy_run.specs.Sides.{holder, left_from, right_from};
ghost use Rattle.owner_label.specs.Labelled.{IsOverlay};
ghost use Rattle.plane.specs.Point.{Point};
ghost use Rattle.plane.specs.Region.{IsSide};

use cov_types::{Coord, Seg};
use face_walk::Regions;
use half_edge::Side;
use owner_label::Labels;

/// The member that holds the side point, of several the least, and none where none does.
pub fn side_holder(regions: &Regions, labels: &Labels, side: Side) -> Option<u32>
    requires regions { labels.now.edges ≡ regions.now }
    requires within { side.number < 2 * length regions.now }
    ensures { (o : Overlay) (p : Point) → IsOverlay labels.now o → IsSide regions.now side.number p → result ≡ holder o.uses o.members p }
{
    labels
        .label(regions.region_of(side.number()))
        .first()
        .copied()
}

/// The side on the left of the way along the edge at the place, from this end of it.
pub fn side_on_left(from: Coord, edge: Seg, place: usize) -> Side
    requires { place < 2 ^ 63 }
    ensures within { (n : ℕ) → place < n → result.number < 2 * n }
    ensures side { (edges : List Edge) → slice_get edges place ≡ Some edge → IsSide edges result.number (left_from from edge) }
{
    if from == edge.lo {
        Side::upper(place)
    } else {
        Side::lower(place)
    }
}

/// The side on the right of that way.
pub fn side_on_right(from: Coord, edge: Seg, place: usize) -> Side
    requires { place < 2 ^ 63 }
    ensures within { (n : ℕ) → place < n → result.number < 2 * n }
    ensures side { (edges : List Edge) → slice_get edges place ≡ Some edge → IsSide edges result.number (right_from from edge) }
{
    if from == edge.lo {
        Side::lower(place)
    } else {
        Side::upper(place)
    }
}
