ghost use Rattle.grid_pred.specs.Sizes.{TurnSize, SquareSize, RiseSize, DepthSize, CrossSize, LengthSize};

/// How large the numbers of the predicates are, for coordinates in range. A call does nothing.
pub fn size_law()
    ensures turn { TurnSize }
    ensures square { SquareSize }
    ensures rise { RiseSize }
    ensures depth { DepthSize }
    ensures cross { CrossSize }
    ensures length { LengthSize }
{}
