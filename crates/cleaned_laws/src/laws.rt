ghost use Rattle.cleaned_laws.specs.Laws.{BuiltHoldsLaw, BuiltValidLaw, CleanedOwnersLaw, CleanedValidLaw, CleanedHoldsLaw, CleanedHeldLaw, UnionHoldsLaw, UnionValidLaw};

/// What is built of owners holds each point by its owner, and is valid. A call does nothing.
pub fn built_law()
    ensures holds { BuiltHoldsLaw }
    ensures valid { BuiltValidLaw }
{}

/// The cleaned coverage holds each point by the owner of its region, and is valid. A call does nothing.
pub fn cleaned_coverage_law<State>()
    ensures owners { CleanedOwnersLaw State }
    ensures valid { CleanedValidLaw State }
    ensures holds { CleanedHoldsLaw State }
{}

/// In the cleaned coverage the label of a point tells who holds it. A call does nothing.
pub fn held_by_label_law<State>()
    ensures { CleanedHeldLaw State }
{}

/// What is built for one owner of all regions with a label is the union of a valid coverage, and is valid. A call does nothing.
pub fn union_law()
    ensures holds { UnionHoldsLaw }
    ensures valid { UnionValidLaw }
{}
