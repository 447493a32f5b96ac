ghost use Rattle.std.specs.Prelude.{◌≡◌, ℕ, ◌+◌, ◌*◌, ◌/◌, ◌%◌, ◌==◌, ◌<◌, ◌^◌, List};
ghost use Rattle.cov_types.specs.declared.seg.Seg.{Seg};
ghost use Rattle.half_edge.specs.Side.{across};
ghost use Rattle.sector_laws.specs.Sector.{HalfEdge, twin, IsHalfEdge};

/// A side of an edge, and the half-edge that has it on its left. Side 2k is the upper side of edge k, on the left of the half-edge that
/// runs from lo to hi; side 2k + 1 is its lower side, on the left of the one that runs back.
#[derive(Clone, Copy, Debug, PartialEq, Eq)]
pub struct Side {
    number: usize,
}

impl Side {
    /// The side with the number. Takes constant time.
    pub fn of_number(number: usize) -> Side
        ensures { result.number ≡ number }
    {
        Side { number }
    }

    /// The upper side of edge k. Takes constant time.
    pub fn upper(k: usize) -> Side
        requires { k < 2 ^ 63 }
        ensures { result.number ≡ 2 * k }
    {
        Side { number: 2 * k }
    }

    /// The lower side of edge k. Takes constant time.
    pub fn lower(k: usize) -> Side
        requires { k < 2 ^ 63 }
        ensures { result.number ≡ 2 * k + 1 }
    {
        Side { number: 2 * k + 1 }
    }

    /// Its number. Takes constant time.
    pub fn number(self) -> usize
        ensures { result ≡ self.number }
    {
        self.number
    }

    /// The place of its edge. Takes constant time.
    pub fn edge(self) -> usize
        ensures { result ≡ self.number / 2 }
    {
        self.number / 2
    }

    /// Whether it is the upper side of its edge. Takes constant time.
    pub fn is_upper(self) -> bool
        ensures { result ≡ (self.number % 2 == 0) }
    {
        self.number % 2 == 0
    }

    /// The other side of the same edge, and the half-edge in the other direction. Takes constant time.
    pub fn twin(self) -> Side
        ensures across { result.number ≡ across self.number }
        ensures opposite { (edges : List Seg) (g : HalfEdge) → IsHalfEdge edges self.number g → IsHalfEdge edges result.number (twin g) }
        ensures within { (n : ℕ) → self.number < 2 * n → result.number < 2 * n }
    {
        if self.number % 2 == 0 {
            Side {
                number: self.number + 1,
            }
        } else {
            Side {
                number: self.number - 1,
            }
        }
    }
}
