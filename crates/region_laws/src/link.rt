ghost use Rattle.region_laws.specs.Laws.{LinkDownLaw, LinkOutLaw, LinkedJoinedLaw, OutSideLaw};

/// Linked sides have joined side points. A call does nothing.
pub fn link_law()
    ensures down { LinkDownLaw }
    ensures out { LinkOutLaw }
    ensures linked { LinkedJoinedLaw }
    ensures outer { OutSideLaw }
{}
