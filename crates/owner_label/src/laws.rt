ghost use Rattle.owner_label.specs.Laws.{ToggleLaw, OneLabelLaw, OuterLabelLaw};

/// Across a live edge exactly the members change that are odd for it, the points of a region have one label, and the outer region has the
/// empty one. A call does nothing.
pub fn label_law()
    ensures toggle { ToggleLaw }
    ensures one { OneLabelLaw }
    ensures outer { OuterLabelLaw }
{}
