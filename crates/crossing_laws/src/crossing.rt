ghost use Rattle.crossing_laws.specs.Laws.{CrossingSumLaw, ParityLaw, MemberLaw, LabelLaw, CoverageLaw, CoverageLabelLaw};

/// The law of crossing sums. A call does nothing.
pub fn crossing_sum_law()
    ensures { CrossingSumLaw }
{}

/// Its parity form: joined points are held alike. A call does nothing.
pub fn parity_law()
    ensures edges { ParityLaw }
    ensures member { MemberLaw }
    ensures label { LabelLaw }
{}

/// Joined points are held by the same members of a coverage. A call does nothing.
pub fn coverage_law()
    ensures members { CoverageLaw }
    ensures label { CoverageLabelLaw }
{}
