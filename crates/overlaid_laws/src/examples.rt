ghost use Rattle.overlaid_laws.specs.Examples.{LabelExamples, OverlapExamples};

/// The pairs of labels, by computation. A call does nothing.
pub fn vectors()
    ensures { LabelExamples }
{}

/// Two squares that overlap, one in each coverage. A call does nothing.
pub fn instances()
    ensures { OverlapExamples }
{}
