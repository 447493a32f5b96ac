ghost use Rattle.cover_words.specs.Accepted.{AcceptedLaw, MappingLaw};

/// The words of `cover` name an operation exactly where they are accepted, and those of `cover_faults` a mapping: the values that an
/// operation needs are there in all words that its command takes. Does nothing.
pub fn accepted_law()
    ensures operations { AcceptedLaw }
    ensures mappings { MappingLaw }
{}
