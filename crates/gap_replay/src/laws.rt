ghost use Rattle.gap_replay.specs.Laws.{GapCandidateLaw, OneGapsLaw, FillerLaw, ReplayOwnerLaw, ReplayOwnersLaw, ReplayValidLaw, ReplayHoldsLaw, ReplayHeldLaw, OneReplayLaw, LongestReplayLaw, LongestStateLaw};

/// What a rule is told of a gap, and the list of narrow gaps. A call does nothing.
pub fn gap_law()
    ensures candidates { GapCandidateLaw }
    ensures one { OneGapsLaw }
{}

/// A gap has a candidate, which a lawful rule picks; and a region has one owner at most. A call does nothing.
pub fn filler_law<State>()
    ensures picked { FillerLaw State }
    ensures one { ReplayOwnerLaw State }
{}

/// The coverage that is cleaned with gaps by rule holds each point by the owner of its region, is valid, and is one. A call does nothing.
pub fn replay_law<State>()
    ensures owners { ReplayOwnersLaw State }
    ensures valid { ReplayValidLaw State }
    ensures holds { ReplayHoldsLaw State }
    ensures held { ReplayHeldLaw State }
    ensures one { OneReplayLaw State }
{}

/// By the longest border it is all one whether the rule is asked for gaps. A call does nothing.
pub fn longest_law<State>()
    ensures cleaned { LongestReplayLaw State }
    ensures state { LongestStateLaw State }
{}
