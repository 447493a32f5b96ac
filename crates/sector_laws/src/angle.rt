ghost use Rattle.sector_laws.specs.Laws.{AngleTotalLaw, AngleAsymmetricLaw, AngleTransitiveLaw, NarrowSectorLaw, WideSectorLaw, StraightSectorLaw, FullSectorLaw, FanLaw, FanRoundLaw};

/// The half-edges that leave a vertex are strictly ordered by angle, and two in one direction are one. A call does nothing.
pub fn angle_law()
    ensures total { AngleTotalLaw }
    ensures asymmetric { AngleAsymmetricLaw }
    ensures transitive { AngleTransitiveLaw }
{}

/// What is in a sector, by turns alone. A call does nothing.
pub fn shape_law()
    ensures narrow { NarrowSectorLaw }
    ensures wide { WideSectorLaw }
    ensures straight { StraightSectorLaw }
    ensures full { FullSectorLaw }
{}

/// Neighbours in the fan of a vertex follow one another. A call does nothing.
pub fn fan_law()
    ensures neighbours { FanLaw }
    ensures round { FanRoundLaw }
{}
