ghost use Rattle.arrangement.specs.Laws.{OddUsesLaw, LiveUsesLaw, LiveAgainLaw, NodingLaw, SidesDifferLaw, FarLaw, OverlayLaw, SnappedOverlayLaw, SnappedPlanarLaw, LiveOverlayLaw, LabelLaw, ValidLiveLaw, ValidOverlayLaw};

/// Members hold points by their odd edges alone. A call does nothing.
pub fn odd_uses_law()
    ensures edges { OddUsesLaw }
    ensures live { LiveUsesLaw }
    ensures again { LiveAgainLaw }
{}

/// Uses have one noding. A call does nothing.
pub fn noding_law()
    ensures { NodingLaw }
{}

/// The two sides of a live edge have different labels, and far out no member holds anything. A call does nothing.
pub fn label_law()
    ensures sides { SidesDifferLaw }
    ensures far { FarLaw }
{}

/// Uses have one overlay, and that of the snapped members is planar. A call does nothing.
pub fn overlay_law()
    ensures one { OverlayLaw }
    ensures snapped { SnappedOverlayLaw }
    ensures planar { SnappedPlanarLaw }
{}

/// What an overlay of a coverage keeps, and the labels of its regions. A call does nothing.
pub fn live_overlay_law()
    ensures live { LiveOverlayLaw }
    ensures labels { LabelLaw }
{}

/// The segments of a valid coverage are its live edges. A call does nothing.
pub fn valid_law()
    ensures live { ValidLiveLaw }
    ensures overlay { ValidOverlayLaw }
{}
