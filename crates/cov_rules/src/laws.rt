ghost use Rattle.cov_rules.specs.Laws.{PlaceLaw};

/// What a rule picks by its kind is a place in the candidates. A call does nothing.
pub fn place_law()
    ensures { PlaceLaw }
{}
