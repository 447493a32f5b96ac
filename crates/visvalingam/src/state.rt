ghost use Rattle.std.specs.Prelude.{◌≡◌, ◌<◌, ◌∷◌, ◌++◌, [], ℕ, cond, List, IfOk, IfSome, OnOk, IsTrue, ◌↔◌, Contains, MatchOption, All};
ghost use Rattle.cov_types.specs.declared.coord.Coord.{Coord};
ghost use Rattle.cov_types.specs.Coord.{is_same_coord};
ghost use Rattle.greedy_run.specs.Run.{Simplification, IsNextPoint, IsRemovable, IsRunState};
ghost use Rattle.visvalingam.specs.Queue.{IsNoLater, at_spot};
ghost use Rattle.visvalingam.specs.Ready.{IsOpen, IsReady};
ghost use Rattle.visvalingam.specs.Chains.{IsCornerInRange, IsStandingIn, AreAllLinked, IsAnswerIn, count_left};
ghost use Rattle.visvalingam.specs.State.{IsTaskOf, IsTaskInRange, IsStateOf, AreTables, IsAllowed, IsGoing, IsSettledSo, IsFoundSo, IsAfter, gone};
ghost use Rattle.visvalingam.specs.Waiting.{waiting_at};
ghost use Rattle.visvalingam.specs.declared.spot.QueuedSpot.{QueuedSpot};

use crate::chains::Links;
use crate::corner::Corner;
use crate::queue::Queue;
use crate::segments::Segments;
use crate::spot::QueuedSpot;
use crate::task::Task;
use crate::waiting::Waiting;
use cov_cells::Cells;
use cov_types::{Coord, NoMemory};

/// A state of the run.
#[derive(Drop)]
pub(crate) struct State {
    // The links of each line's points; none where the point has gone.
    pub(crate) links: Vec<Vec<Option<Links>>>,
    pub(crate) cells: Cells,
    pub(crate) segments: Segments,
    pub(crate) queue: Queue,
    pub(crate) waiting: Waiting,
    // The points that went, the last of them last.
    pub(crate) removed: Vec<Coord>,
}

/// The point at a place of a line between its neighbours; None where it has gone, is an end, or is none.
pub(crate) fn corner_at(
    task: &Task,
    links: &[Vec<Option<Links>>],
    line: usize,
    place: usize,
) -> Option<Corner>
    requires { IsTaskInRange task.now }
    ensures in_range { IfSome result IsCornerInRange }
    ensures standing { IfSome result (IsStandingIn links.now line place) }
    ensures answer { (removed : List Coord) → AreAllLinked removed task.now.lines.now links.now → IsAnswerIn removed task.now.lines.now line place result }
{
    if line >= task.lines.len() || line >= links.len() {
        return None;
    }
    Corner::at(task.lines[line].as_slice(), links[line].as_slice(), place)
}

/// Whether the line may lose points, and a triangle of this size is small.
fn is_allowed(task: &Task, line: usize, size: u64) -> bool
    requires { IsTaskInRange task.now }
    ensures { IsTrue result ↔ IsAllowed task.now line size }
{
    if line >= task.open_lines.len() || !task.open_lines[line] {
        return false;
    }
    let tolerance = task.tolerance as u64;
    size <= 2 * (tolerance * tolerance)
}

/// Enters the spot at a place of a line, if it may become removable.
pub(crate) fn enter(
    task: &Task,
    links: &[Vec<Option<Links>>],
    queue: &mut Queue,
    line: usize,
    place: usize,
) -> Result<(), NoMemory>
    requires { IsTaskInRange task.now }
    ensures kept { OnOk result ((q : QueuedSpot) → Contains queue.old q → Contains queue.new q) }
    ensures entered { OnOk result ((s : Simplification) (removed : List Coord) (q : QueuedSpot) → IsTaskOf s task.now → AreAllLinked removed task.now.lines.now links.now → q.line ≡ line → q.place ≡ place → IsOpen s removed (at_spot q) → Contains queue.new q) }
{
    let Some(corner) = corner_at(task, links, line, place) else {
        return Ok(());
    };
    let size = corner.size();
    if !is_allowed(task, line, size) {
        return Ok(());
    }
    queue.push(QueuedSpot { size, line, place })?;
    Ok(())
}

impl State {
    /// The next corner of the run with its spot, if there is one: that spot leaves the queue, with all before it. A spot with a vertex
    /// in its way waits there.
    pub(crate) fn next_corner(
        &mut self,
        task: &Task,
    ) -> Result<Option<(QueuedSpot, Corner)>, NoMemory>
        requires { IsTaskInRange task.now }
        ensures same { OnOk result (self.new ≡ record self.old { queue = self.new.queue; waiting = self.new.waiting }) }
        ensures standing { IfOk result (λ answer. IfSome answer (λ next. IsStandingIn self.old.links.items next.0.line next.0.place next.1)) }
        ensures found { IfOk result (λ answer. (s : Simplification) → IsTaskOf s task.now → AreTables s task.now self.old → IsReady s (gone self.old) self.old.queue (waiting_at self.old.waiting.spots) → IsFoundSo s self.old self.new answer) }
    {
        'spots: while let Some(spot) = self.queue.pop() {
            if let Some(corner) = self.removable(task, spot)? {
                return Ok(Some((spot, corner)));
            }
        }
        Ok(None)
    }

    // The corner at a spot that left the queue, if its point is removable. Where a vertex is in its way, it waits there.
    fn removable(&mut self, task: &Task, spot: QueuedSpot) -> Result<Option<Corner>, NoMemory>
        requires { IsTaskInRange task.now }
        ensures same { OnOk result (self.new ≡ record self.old { waiting = self.new.waiting }) }
        ensures standing { IfOk result (λ answer. IfSome answer (IsStandingIn self.old.links.items spot.line spot.place)) }
        ensures settled { IfOk result (λ answer. (s : Simplification) → IsTaskOf s task.now → AreTables s task.now self.old → IsReady s (gone self.old) (spot ∷ self.old.queue) (waiting_at self.old.waiting.spots) → IsSettledSo s self.old (waiting_at self.new.waiting.spots) spot answer) }
    {
        let Some(corner) = corner_at(task, self.links.as_slice(), spot.line, spot.place) else {
            return Ok(None);
        };
        if corner.size() != spot.size {
            return Ok(None);
        }
        if !is_allowed(task, spot.line, spot.size) {
            return Ok(None);
        }
        if self.segments.joins(corner.a, corner.c) {
            return Ok(None);
        }
        match self.cells.first_in(corner.a, corner.b, corner.c) {
            Some(p) => {
                self.waiting.push(p, spot)?;
                Ok(None)
            }
            None => Ok(Some(corner)),
        }
    }

    /// Removes the point at the spot.
    pub(crate) fn remove(
        &mut self,
        task: &Task,
        spot: QueuedSpot,
        corner: Corner,
    ) -> Result<(), NoMemory>
        requires in_range { IsTaskInRange task.now }
        requires standing { IsStandingIn self.old.links.items spot.line spot.place corner }
        ensures fewer { OnOk result (count_left self.new.links.items < count_left self.old.links.items) }
        ensures after { OnOk result ((s : Simplification) → IsTaskOf s task.now → AreTables s task.now self.old → IsGoing s (gone self.old) spot corner → IsReady s (gone self.old) (spot ∷ self.old.queue) (waiting_at self.old.waiting.spots) → IsAfter s task.now self.old self.new corner.b) }
    {
        Links::unlink(
            self.links[spot.line].as_mut_slice(),
            spot.place,
            corner.before,
            corner.after,
        );
        self.segments.remove(corner.a, corner.b);
        self.segments.remove(corner.b, corner.c);
        self.segments.add(corner.a, corner.c)?;
        self.cells.remove(corner.b);
        self.removed.push(corner.b)?;
        self.enter_again(task, spot.line, corner)?;
        Ok(())
    }

    // Enters the spots of the neighbours of a point that went, and all that waited for it.
    fn enter_again(&mut self, task: &Task, line: usize, corner: Corner) -> Result<(), NoMemory>
        requires { IsTaskInRange task.now }
        ensures same { OnOk result (self.new ≡ record self.old { queue = self.new.queue; waiting = self.new.waiting }) }
        ensures kept { OnOk result ((q : QueuedSpot) → Contains self.old.queue q → Contains self.new.queue q) }
        ensures before { OnOk result ((s : Simplification) (removed : List Coord) (q : QueuedSpot) → IsTaskOf s task.now → AreAllLinked removed task.now.lines.now self.old.links.items → q.line ≡ line → q.place ≡ corner.before → IsOpen s removed (at_spot q) → Contains self.new.queue q) }
        ensures after { OnOk result ((s : Simplification) (removed : List Coord) (q : QueuedSpot) → IsTaskOf s task.now → AreAllLinked removed task.now.lines.now self.old.links.items → q.line ≡ line → q.place ≡ corner.after → IsOpen s removed (at_spot q) → Contains self.new.queue q) }
        ensures woken { OnOk result ((q : QueuedSpot) → Contains (waiting_at self.old.waiting.spots corner.b) q → Contains self.new.queue q) }
        ensures left { OnOk result ((p : Coord) → waiting_at self.new.waiting.spots p ≡ cond (is_same_coord corner.b p) [] (waiting_at self.old.waiting.spots p)) }
    {
        let links = self.links.as_slice();
        enter(task, links, &mut self.queue, line, corner.before)?;
        enter(task, links, &mut self.queue, line, corner.after)?;
        let woken = self.waiting.take(corner.b);
        self.queue.push_all(woken.as_slice())?;
        Ok(())
    }
}
