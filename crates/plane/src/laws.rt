ghost use Rattle.plane.specs.Laws.{SweepLaw, RisesLaw, OverLaw, OnLaw, ContactLaw, SamePointLaw, RootLaw};
ghost use Rattle.plane.specs.Examples.{OverExamples, SquareExamples, ContactExamples};

/// The order of grid points is that of their sweep values. A call does nothing.
pub fn sweep_law()
    ensures ordered { SweepLaw }
    ensures rises { RisesLaw }
{}

/// What "an edge is over a point" means. A call does nothing.
pub fn over_law()
    ensures { OverLaw }
{}

/// What the points of a segment are. A call does nothing.
pub fn on_law()
    ensures { OnLaw }
{}

/// How two segments meet has one answer at most. A call does nothing.
pub fn contact_law()
    ensures { ContactLaw }
{}

/// The definitions speak of points, and not of the fractions that write them. A call does nothing.
pub fn same_point_law()
    ensures { SamePointLaw }
{}

/// The root of a number is the whole part of its square root. A call does nothing.
pub fn root_law()
    ensures { RootLaw }
{}

/// Examples with numbers, by computation. A call does nothing.
pub fn vectors()
    ensures over { OverExamples }
    ensures square { SquareExamples }
    ensures contacts { ContactExamples }
{}
