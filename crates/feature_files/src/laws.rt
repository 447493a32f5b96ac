ghost use Rattle.feature_files.specs.Laws.{OneReadingLaw, OneFaultLaw, ReadOrFaultLaw, FaultlessLaw, OneFormLaw, FormedLaw, ReadBackLaw};

/// Laws of files: by their name and at a scale bytes have at most one reading and at most one fault, have one of the two, and not both;
/// what is read is formed, of a file that is not too long; features without a number that is held as a float have one
/// written form; and what is written to a GeoJSON file reads back. A call does nothing.
pub fn one_answer()
    ensures reading { OneReadingLaw }
    ensures fault { OneFaultLaw }
    ensures either { ReadOrFaultLaw }
    ensures faultless { FaultlessLaw }
    ensures formed { FormedLaw }
    ensures form { OneFormLaw }
    ensures read_back { ReadBackLaw }
{}
