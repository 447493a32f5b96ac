ghost use Rattle.std.specs.Prelude.{◌≡◌, ◌<◌, ◌↔◌, [], true, IfOk, OnOk, Contains, List, length};
ghost use Rattle.cov_types.specs.declared.coord.Coord.{Coord};
ghost use Rattle.cov_types.specs.declared.seg.Seg.{Seg};
ghost use Rattle.greedy_run.specs.Run.{Simplification, current_points, current_edges};
ghost use Rattle.visvalingam.specs.Chains.{AreAllLinked};
ghost use Rattle.visvalingam.specs.Queue.{at_spot};
ghost use Rattle.visvalingam.specs.Ready.{IsOpen};
ghost use Rattle.visvalingam.specs.Segments.{is_among};
ghost use Rattle.visvalingam.specs.State.{IsTaskOf, IsTaskInRange, IsStateOf, lists_of};
ghost use Rattle.visvalingam.specs.declared.spot.QueuedSpot.{QueuedSpot};

use crate::chains::Links;
use crate::queue::Queue;
use crate::segments::Segments;
use crate::state::{State, enter};
use crate::task::Task;
use crate::waiting::Waiting;
use cov_cells::Cells;
use cov_types::{Coord, NoMemory};
use std::alloc::Global;

/// The state before the first removal, with each spot that may become removable in the queue.
pub(crate) fn first_state(alloc: Global, task: &Task) -> Result<State, NoMemory>
    requires { IsTaskInRange task.now }
    ensures { IfOk result (λ state. (s : Simplification) → IsTaskOf s task.now → IsStateOf s task.now state state.queue) }
{
    let points = all_points(alloc, task.lines)?;
    let links = first_links(alloc, task.lines)?;
    let queue = first_queue(alloc, task, links.as_slice())?;
    Ok(State {
        links,
        cells: Cells::build(alloc, points.as_slice())?,
        segments: first_segments(alloc, task.lines)?,
        queue,
        waiting: Waiting::new(alloc),
        removed: Vec::new(alloc),
    })
}

// The points of all lines.
fn all_points(alloc: Global, lines: &[Vec<Coord>]) -> Result<Vec<Coord>, NoMemory>
    ensures { IfOk result (λ points. points.items ≡ current_points (lists_of lines.now) []) }
{
    let mut points = Vec::new(alloc);
    for line in lines {
        points.extend_from_slice(line.as_slice())?;
    }
    Ok(points)
}

// The links of all lines.
fn first_links(alloc: Global, lines: &[Vec<Coord>]) -> Result<Vec<Vec<Option<Links>>>, NoMemory>
    ensures { IfOk result (λ links. AreAllLinked [] lines.now links.items) }
{
    let mut links = Vec::new(alloc);
    for line in lines {
        links.push(Links::first(alloc, line.len())?)?;
    }
    Ok(links)
}

// The segments of all lines.
fn first_segments(alloc: Global, lines: &[Vec<Coord>]) -> Result<Segments, NoMemory>
    ensures { IfOk result (λ segments. (e : Seg) → (is_among segments.ends e ≡ true) ↔ Contains (current_edges (lists_of lines.now) []) e) }
{
    let mut segments = Segments::new(alloc);
    for line in lines {
        segments.add_chain(line.as_slice())?;
    }
    Ok(segments)
}

// Each spot that may become removable.
fn first_queue(alloc: Global, task: &Task, links: &[Vec<Option<Links>>]) -> Result<Queue, NoMemory>
    requires { IsTaskInRange task.now }
    ensures { IfOk result (λ queue. (s : Simplification) (q : QueuedSpot) → IsTaskOf s task.now → AreAllLinked [] task.now.lines.now links.now → IsOpen s [] (at_spot q) → Contains queue q) }
{
    let mut queue = Queue::new(alloc);
    for line in 0..task.lines.len() {
        enter_line(task, links, &mut queue, line)?;
    }
    Ok(queue)
}

// Enters each spot of a line that may become removable.
fn enter_line(
    task: &Task,
    links: &[Vec<Option<Links>>],
    queue: &mut Queue,
    line: usize,
) -> Result<(), NoMemory>
    requires in_range { IsTaskInRange task.now }
    requires line { line < length task.now.lines.now }
    ensures kept { OnOk result ((q : QueuedSpot) → Contains queue.old q → Contains queue.new q) }
    ensures entered { OnOk result ((s : Simplification) (removed : List Coord) (q : QueuedSpot) → IsTaskOf s task.now → AreAllLinked removed task.now.lines.now links.now → q.line ≡ line → IsOpen s removed (at_spot q) → Contains queue.new q) }
{
    for place in 0..task.lines[line].len() {
        enter(task, links, queue, line, place)?;
    }
    Ok(())
}
