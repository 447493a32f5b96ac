ghost use Rattle.std.specs.Prelude.{◌≡◌, All, IfOk, map};
ghost use Rattle.cov_types.specs.Range.{IsSegInRange};
ghost use Rattle.box_tree.specs.Rect.{box_of_segment};
ghost use Rattle.hot_pixel.specs.Columns.{columns_of, places_in_columns};

use box_tree::{BoxTree, Probe, Rect};
use cov_types::{Coord, EdgeUse, LIMIT, NoMemory, Seg};
use std::alloc::Global;
use std::marker::Model;

/// An index over the columns of the grid that the segments of a list of uses pass. A contract sees it as that list.
#[derive(Drop)]
pub struct Columns {
    list: Vec<EdgeUse>,
    // A tree over the boxes of the segments.
    tree: BoxTree,
}

impl Model for Columns {
    ghost use Rattle.std.specs.Prelude.{◌≡◌, List, map, All};
    ghost use Rattle.box_tree.specs.Rect.{box_of_segment};
    ghost use Rattle.cov_types.specs.Range.{IsSegInRange};
    ghost use Rattle.cov_types.specs.declared.edge_use.EdgeUse.{EdgeUse};

    ghost Value = { List EdgeUse };

    ghost view = { λ columns. columns.list.items };

    ghost invariant = { λ columns. All (λ u. IsSegInRange u.seg) columns.list.items × (columns.tree ≡ map (λ u. box_of_segment u.seg) columns.list.items) };
}

impl Columns {
    /// The index over a copy of the list, whose segments should be near in the list where they are near in the plane. Takes time and
    /// memory in proportion to the list.
    pub fn build(alloc: Global, list: &[EdgeUse]) -> Result<Columns, NoMemory>
        requires { All (λ u. IsSegInRange u.seg) list.now }
        ensures { IfOk result (λ columns. columns ≡ list.now) }
    {
        let tree = BoxTree::build(alloc, boxes_of(alloc, list)?)?;
        let list = Vec::from_slice(alloc, list)?;
        Ok(Columns { list, tree })
    }

    /// The places of the uses whose segments pass a column of the segment, or the column before or after, ascending. Takes time in
    /// proportion to these and to the logarithm of the list, and memory in proportion to these.
    pub fn near(&self, s: Seg) -> Result<Vec<usize>, NoMemory>
        requires { IsSegInRange s }
        ensures { IfOk result (λ places. places.items ≡ places_in_columns s 0 self.now) }
    {
        self.tree.meeting(&Probe::Box(columns_of(s)))
    }
}

fn boxes_of(alloc: Global, list: &[EdgeUse]) -> Result<Vec<Rect>, NoMemory>
    ensures { IfOk result (λ boxes. boxes.items ≡ map (λ u. box_of_segment u.seg) list.now) }
{
    let boxes = list.iter().map(|u| Rect::of_segment(u.seg)).collect(alloc)?;
    Ok(boxes)
}

// The columns of a segment, and one on each side, over the whole range.
fn columns_of(s: Seg) -> Rect
    requires { IsSegInRange s }
    ensures { result ≡ columns_of s }
{
    Rect::spanning(
        Coord {
            x: s.lo.x - 1,
            y: -LIMIT,
        },
        Coord {
            x: s.hi.x + 1,
            y: LIMIT,
        },
    )
}
