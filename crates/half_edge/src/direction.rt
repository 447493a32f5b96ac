ghost use Rattle.std.specs.Prelude.{refl};
ghost use Rattle.std.specs.Cmp.{eq_by_cmp_equiv, partial_equiv_from_equiv, on_total, po};
ghost use Rattle.std.specs.Ordering.{as_partial_cmp, eq_by_cmp, on};
ghost use Rattle.sector_laws.proofs.Turning.{direction_total};
ghost use Rattle.sector_laws.specs.Direction.{direction_cmp};
ghost use Rattle.half_edge.specs.Directed.{half_edge_to};

use crate::directed::DirectedEdge;
use grid_pred::turn;
use std::cmp::Ordering;

/// The direction in which a directed edge leads.
///
/// Directions are ordered counter-clockwise from straight down: those of edges taken forwards first, and then by the turn. Two are
/// equal where neither edge leads to the left of the other.
#[derive(Clone, Copy)]
pub struct Direction {
    pub of: DirectedEdge,
}

impl PartialEq for Direction {
    ghost eq = { eq_by_cmp (on half_edge_to direction_cmp) };

    ghost laws = { partial_equiv_from_equiv (eq_by_cmp_equiv (on_total half_edge_to direction_total)) };

    fn eq(&self, other: &Direction) -> bool {
        self.cmp(other).is_eq()
    }
}

impl Eq for Direction {
    ghost laws = { eq_by_cmp_equiv (on_total half_edge_to direction_total) };
}

impl PartialOrd for Direction {
    ghost partial_cmp = { as_partial_cmp (on half_edge_to direction_cmp) };

    ghost laws = { po (on_total half_edge_to direction_total) (λ x y. refl) };

    fn partial_cmp(&self, other: &Direction) -> Option<Ordering> {
        Some(self.cmp(other))
    }
}

impl Ord for Direction {
    ghost cmp = { on half_edge_to direction_cmp };

    ghost total = { on_total half_edge_to direction_total };

    ghost matches_partial_cmp = { λ x y. refl };

    ghost matches_eq = { λ x y. refl };

    fn cmp(&self, other: &Direction) -> Ordering {
        let s = self.of.edge;
        let t = other.of.edge;
        other
            .of
            .forwards
            .cmp(&self.of.forwards)
            .then(turn(s.lo, s.hi, t.lo).cmp(&turn(s.lo, s.hi, t.hi)))
    }
}
