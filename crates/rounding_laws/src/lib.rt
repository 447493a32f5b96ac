//! Snap rounding after Hobby: what the chain edges of segments are, by lemmas alone. It has no code, and its one promise is that
//! snap rounding is fully noded: any two chain edges are equal or have at most common ends in common (`fully_noded_law`).
//!
//! A crate above takes a lemma by `use Rattle.rounding_laws.proofs.FILE.{NAME}` in its `proofs/`. The files, lowest first:
//!
//! - `Near`: numbers that round to a whole number (`Near`, `mean_near`, `rounds`, `rounds_once`), and pixels by them (`pixel-near`,
//!   `near-pixel`, `pixel_of_point`, `pixel_unique`, `pixel_own`). `Means`: the mean of two points as a point.
//! - `Vectors`: homogeneous vectors of which one coordinate moves, their order `ahead` and their turns `turned`. `Moves`: an end keeps
//!   its side of two vectors where no mean of them rounds to its centre (`end_stays`), and a crossing after a move was one before it
//!   (`crossing_survives`). Both know nothing of pixels.
//! - `Passing`: points between two points of a segment, and their sweep values. `Pieces`: the piece of a segment between neighbours
//!   of its chain (`IsPiece`, `piece_at`). `Edges`: a chain edge has a piece, and its ends are hot and in range (`chain_edge`,
//!   `edge_in_range`).
//! - `Shadow`: `half_unit`, and no hot centre inside a chain edge (`hot_is_end`). `Crossing` and `NoCrossing`: no two chain edges cross
//!   (`no_crossing`). `Noded`: `fully_noded`.
//! - `Ends`: the chain goes from lo to hi, its centres and its edges are different, and of any set of points its edges have an even
//!   number of ends in it just where its segment has (`even_ends`). `Unique`: a segment has one chain.
//! - `First`: which of two points, and of two pixels, a segment passes first (`passes-is`). `Meets`: which pixels it meets
//!   (`meets-is`). `Lone`: a chain from its hot centres in order (`chain_by_formulas`), and the chain of a segment alone.
//! - `Odd`: a sum over the elements that a list has an odd number of times is that over the list, up to an even number (`odd_sum`).
#![tactic(auto)]

ghost use Rattle.rounding_laws.specs.Laws.{FullyNoded, ListFullyNoded, HalfUnit, NoHotInside, OnePixel, OneChain, FromLoToHi, CentresInRange, CentresDiffer, EdgesDiffer, EvenEnds};
ghost use Rattle.rounding_laws.specs.Laws.{MeetsWhereBeside, PassingOrder, ChainByCentres, LoneChain};

/// Any two chain edges of segments in range are equal or have at most common ends in common. A call does nothing.
pub fn fully_noded_law()
    ensures edges { FullyNoded }
    ensures lists { ListFullyNoded }
{}

/// How near a chain edge is to its segment, and to hot centres. A call does nothing.
pub fn shadow_law()
    ensures half_unit { HalfUnit }
    ensures no_hot_inside { NoHotInside }
{}

/// Each point is in one pixel. A call does nothing.
pub fn pixel_law()
    ensures { OnePixel }
{}

/// What the chain of a segment in range is. A call does nothing.
pub fn chain_law()
    ensures unique { OneChain }
    ensures ends { FromLoToHi }
    ensures in_range { CentresInRange }
    ensures centres_differ { CentresDiffer }
    ensures edges_differ { EdgesDiffer }
    ensures even_ends { EvenEnds }
{}

/// By what formulas a chain is found. A call does nothing.
pub fn formula_law()
    ensures meets { MeetsWhereBeside }
    ensures order { PassingOrder }
    ensures chain { ChainByCentres }
    ensures lone { LoneChain }
{}
