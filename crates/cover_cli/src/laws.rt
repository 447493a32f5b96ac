ghost use Rattle.cover_cli.specs.CallerRules.{CallerRulesLaw};
ghost use Rattle.cover_cli.specs.Headline.{HeadlineLaw};
ghost use Rattle.cover_cli.specs.SampleLaw.{SampleLaw};
ghost use Rattle.cover_cli.specs.Located.{LocateLaw};
ghost use Rattle.cover_cli.specs.Overlaid.{OverlayLaw};
ghost use Rattle.cover_cli.specs.Laws.{OneTextLaw, OneRefusalLaw, RefusedLaw, OneAnswerLaw, CompleteLaw, NoFaultLaw};

/// What the files hold gives an operation one success and one text to write, or one refusal, and not both. The text is one but
/// for floats that are passed on from GeoJSON to GeoJSON. A call does nothing.
pub fn written_law()
    ensures text { OneTextLaw }
    ensures refusal { OneRefusalLaw }
    ensures either { RefusedLaw }
{}

/// The headline: for every file in the grammar and range `cover clean` writes a valid coverage, and each point lies in the
/// member that the definitions say. A call does nothing.
pub fn headline_law()
    ensures { HeadlineLaw }
{}

/// Where `cover_with` is done with a cleaning by a handed-in rule, the output holds the coverage, cleaned through that rule's pick and next
/// from its room for the members, and the rule comes back with the last numbers of that; every other rule is as it was. A call does
/// nothing.
pub fn caller_rules_law()
    ensures { CallerRulesLaw }
{}

/// For every file in the grammar and range and every points file without a fault `cover locate` tells of each point, in order, whether it
/// is on a segment, else the least member that holds it, else that none does. A call does nothing.
pub fn locate_law()
    ensures { LocateLaw }
{}

/// For any two files in the grammar and range whose readings are valid, and have neither too many members nor too many pairs, `cover
/// overlay` writes a valid coverage: each point off the jointly noded edges lies in the member of the pair of the least snapped members
/// that hold it, one of each file. A call does nothing.
pub fn overlay_law()
    ensures { OverlayLaw }
{}

/// What `cover` answers, and the bytes that it writes, are a function of the words and of what the inputs hold, faults
/// and want of memory aside, and floats that are passed on from GeoJSON to GeoJSON; and these faults come only where something
/// failed. A call does nothing.
pub fn answer_law()
    ensures one { OneAnswerLaw }
    ensures complete { CompleteLaw }
    ensures faultless { NoFaultLaw }
{}

/// What `cover sample` leaves: the output holds the jittered grid, cleaned, and the answer has its counts; it reads no file, and
/// only a write fault or want of memory prevents that. A call does nothing.
pub fn sample_law()
    ensures { SampleLaw }
{}
