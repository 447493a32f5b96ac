ghost use Rattle.std.specs.Prelude.{◌≡◌, ◌*◌, ◌<◌, IfOk, length};
ghost use Rattle.arrangement.specs.Noding.{IsAscending};
ghost use Rattle.cov_simplify.specs.Lines.{AreLinesOf, AreSidedLines, IsSidedLine};
ghost use Rattle.greedy_run.specs.Lines.{AreLines, IsLine};
ghost use Rattle.line_walk.specs.Line.{plain_lists};

use crate::edges::{edges_of_valid, place_of};
use crate::side_holder::{side_holder, side_on_left, side_on_right};
use cov_admit::ValidCoverage;
use cov_types::{Coord, NoMemory, Seg};
use face_walk::Regions;
use half_edge::Arena;
use line_walk::lines_of;
use owner_label::Labels;
use std::alloc::Global;

/// A line, and the members that hold the points on its left and on its right, beside its first segment and seen along the line.
#[derive(Drop)]
pub struct Line {
    pub points: Vec<Coord>,
    pub left: Option<u32>,
    pub right: Option<u32>,
}

/// The lines of a valid coverage, in the order of their numbers. Takes n log n time in the number of segments, beside that of
/// `Regions::build`, and memory in proportion to it.
pub fn lines(alloc: Global, v: &ValidCoverage) -> Result<Vec<Line>, NoMemory>
    ensures { IfOk result (λ lines. AreLinesOf v.now lines.items) }
{
    let live = edges_of_valid(alloc, v.coverage())?;
    let arena = Arena::build(alloc, live.edges.to_vec(alloc)?)?;
    let regions = Regions::build(alloc, &arena)?;
    let labels = Labels::build(alloc, &arena, &regions, &live)?;
    let lists = lines_of(alloc, &live.edges)?;
    sided_lines(alloc, &regions, &labels, &live.edges, lists)
}

// The lines, each with the members beside it.
fn sided_lines(
    alloc: Global,
    regions: &Regions,
    labels: &Labels,
    edges: &[Seg],
    lists: Vec<Vec<Coord>>,
) -> Result<Vec<Line>, NoMemory>
    requires regions { labels.now.edges ≡ regions.now }
    requires edges { edges.now ≡ regions.now }
    requires ascending { IsAscending edges.now }
    requires lines { AreLines edges.now (plain_lists lists.items) }
    ensures { IfOk result (λ lines. AreSidedLines labels.now (plain_lists lists.items) lines.items) }
{
    let mut lines = Vec::new(alloc);
    for points in lists {
        lines.push(sided_line(regions, labels, edges, points))?;
    }
    Ok(lines)
}

// The line with the members beside it.
fn sided_line(regions: &Regions, labels: &Labels, edges: &[Seg], points: Vec<Coord>) -> Line
    requires regions { labels.now.edges ≡ regions.now }
    requires edges { edges.now ≡ regions.now }
    requires ascending { IsAscending edges.now }
    requires line { IsLine edges.now points.items }
    ensures { IsSidedLine labels.now points.items result }
{
    let first = points[0];
    match Seg::between(first, points[1]) {
        Some(edge) => {
            let place = place_of(edges, edge);
            let on_left = side_on_left(first, edge, place);
            let on_right = side_on_right(first, edge, place);
            Line {
                points,
                left: side_holder(regions, labels, on_left),
                right: side_holder(regions, labels, on_right),
            }
        }
        None => Line {
            points,
            left: None,
            right: None,
        },
    }
}
