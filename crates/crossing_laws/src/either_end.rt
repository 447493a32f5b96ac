ghost use Rattle.crossing_laws.specs.EitherEnd.{EitherEndLaw, MemberEitherEndLaw, CoverageEitherEndLaw};
ghost use Rattle.crossing_laws.specs.Borders.{BorderExamples};

/// Whichever end of an edge counts at the sweep value of a point, the parity is one. A call does nothing.
pub fn either_end_law()
    ensures edges { EitherEndLaw }
    ensures member { MemberEitherEndLaw }
    ensures coverage { CoverageEitherEndLaw }
{}

/// Where ends decide: in range, the midpoint of a side on the lower or the upper border of the range, and a corner on the other. A call
/// does nothing.
pub fn border_examples()
    ensures { BorderExamples }
{}
