ghost use Rattle.crossing_laws.specs.Laws.{RingLaw, WindingLaw, CoverageSidesLaw};

/// The sides of closed rings are balanced. A call does nothing.
pub fn ring_law()
    ensures ring { RingLaw }
    ensures winding { WindingLaw }
    ensures coverage { CoverageSidesLaw }
{}
