ghost use Rattle.kept_lines_laws.specs.Laws.{EndsKeptLaw, LinesKeptLaw, NodesKeptLaw, SidesKeptLaw, TurnedLaw};

/// The nodes of each state of the run are those of the input. A call does nothing.
pub fn nodes_law()
    ensures { NodesKeptLaw }
{}

/// What is left of a line keeps both ends and the members on its two sides, which are exchanged when it is seen from its other end. A call does nothing.
pub fn line_law()
    ensures ends { EndsKeptLaw }
    ensures sides { SidesKeptLaw }
    ensures turned { TurnedLaw }
{}

/// The lines of each state are exactly what is left of the lines, each in its own lesser direction. A call does nothing.
pub fn lines_law()
    ensures { LinesKeptLaw }
{}
