ghost use Rattle.fault_map.specs.Laws.{OneMapLaw};

/// Two maps of the faults of a coverage at one gap width have as many marks and one written form. A call does nothing.
pub fn one_map_law()
    ensures { OneMapLaw }
{}
