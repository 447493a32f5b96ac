ghost use Rattle.std.specs.Prelude.{◌≡◌, ℕ, ◌<◌, ◌≤◌, List, Some, false, length, slice_get};
ghost use Rattle.box_tree.specs.Levels.{IsPacked, level_at, number_above};
ghost use Rattle.box_tree.specs.Rect.{IsInside};
ghost use Rattle.box_tree.specs.declared.rect.Rect.{Rect};

use crate::rect::Rect;

/// A search among boxes that leaves out what cannot matter any more: it settles each box by a visit, or with others by what it knows.
pub trait Search {
    /// It is a search among these boxes.
    ghost is_among: { Self → List Rect → Type 0 };

    /// The box with the number is settled.
    ghost is_settled: { Self → ℕ → Type 0 };

    /// Whether a box within this one may not be settled yet.
    fn may_matter(&self, hull: Rect) -> bool
        ensures { result ≡ false → (boxes : List Rect) (k : ℕ) (b : Rect) → is_among self.now boxes → slice_get boxes k ≡ Some b → IsInside b hull → is_settled self.now k };

    /// Settles the box with the number.
    fn visit(&mut self, k: usize)
        requires { (boxes : List Rect) × is_among self.old boxes × (k < length boxes) }
        ensures among { (boxes : List Rect) → is_among self.old boxes → is_among self.new boxes }
        ensures settled { is_settled self.new k }
        ensures kept { (j : ℕ) → is_settled self.old j → is_settled self.new j };
}

/// Settles all boxes that are under the hull at the place of the level.
pub(crate) fn search_under<S: Search>(
    levels: &[Vec<Rect>],
    level: usize,
    place: usize,
    search: &mut S,
)
    requires packed { IsPacked levels.now }
    requires level { level < length levels.now }
    requires place { place < length (level_at levels.now level) }
    requires among { S.is_among search.old (level_at levels.now 0) }
    ensures among { S.is_among search.new (level_at levels.now 0) }
    ensures kept { (j : ℕ) → S.is_settled search.old j → S.is_settled search.new j }
    ensures settled { (k : ℕ) → k < length (level_at levels.now 0) → number_above level k ≡ place → S.is_settled search.new k }
{
    if level == 0 {
        search.visit(place);
        return;
    }
    let below = levels[level - 1].as_slice();
    for child in 8 * place..below.len().min(8 * place + 8) {
        if search.may_matter(below[child]) {
            search_under(levels, level - 1, child, search);
        }
    }
}
