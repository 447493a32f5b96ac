ghost use Rattle.std.specs.Prelude.{◌≡◌, ◌+◌, ◌≤◌, ◌<◌, ◌^◌, ◌++◌, List, IfOk, IfErr, length, vec_len};
ghost use Rattle.arrangement.specs.Noding.{IsNoded};
ghost use Rattle.arrangement.specs.declared.odd_use.OddUse.{OddUse};
ghost use Rattle.cov_types.specs.Coverage.{AllInRange, IsFormed};
ghost use Rattle.cov_types.specs.Uses.{uses_of};
ghost use Rattle.cov_types.specs.declared.seg.Seg.{Seg};
ghost use Rattle.overlaid_laws.specs.Overlaid.{IsOverlaid, HoldsByPair};
ghost use Rattle.plane.specs.Validity.{IsValid};
ghost use Rattle.cov_overlay.specs.TooMany.{IsCause};

use crate::error::OverlayError;
use crate::joint::live_edges;
use crate::pair_list::{distinct_pairs, places_of};
use crate::region_pair::pairs_of_sides;
use cov_admit::ValidCoverage;
use cov_build::polygons;
use cov_types::Coverage;
use face_walk::Regions;
use half_edge::Arena;
use overlaid_laws::Pair;
use owner_label::Labels;
use std::alloc::Global;

/// The overlay of two coverages: the pairs of members that meet, ascending by the member of the first coverage and then by that of the
/// second, and for each pair a member of the coverage, at the same place.
#[derive(Debug, Drop)]
pub struct Overlaid {
    pub pairs: Vec<Pair>,
    pub coverage: Coverage,
}

/// Where the members of two valid coverages meet, snapped together. A region between the noded edges of both goes to the pair of the
/// least member of the first coverage that holds it and the least of the second; one that no member of the one or the other holds goes to
/// none. Polygons are sound and in canonical order.
///
/// Two coverages of 2^32 members or more in all have none, nor have two with 2^32 pairs or more: `TooMany` tells that number.
///
/// Takes n log n time in the number of segments, beside the noding and that of `Regions::build`, and memory in proportion to the noded
/// edges and the lengths of the labels.
pub fn overlay(
    alloc: Global,
    a: &ValidCoverage,
    b: &ValidCoverage,
) -> Result<Overlaid, OverlayError>
    ensures overlaid { IfOk result (λ out. IsOverlaid a.now b.now out.pairs.items out.coverage) }
    ensures lengths { IfOk result (λ out. vec_len out.pairs ≡ length out.coverage) }
    ensures valid { IfOk result (λ out. IsValid (uses_of out.coverage)) }
    ensures formed { IfOk result (λ out. IsFormed out.coverage) }

    // Off the jointly noded edges a point is held by the pair of the least snapped members that hold it.
    ensures holds { IfOk result (λ out. (edges : List Seg) (odd : List OddUse) → (noded : IsNoded (uses_of (a.now ++ b.now)) edges odd) → HoldsByPair (length a.now) edges noded.snapped out.pairs.items out.coverage) }

    // An overlay has few members and pairs, and one that is refused has too many of the one or the other.
    ensures few_members { IfOk result (λ _. length a.now + length b.now < 2 ^ 32) }
    ensures few_pairs { IfOk result (λ out. vec_len out.pairs < 2 ^ 32) }
    ensures refused { IfErr result (IsCause a.now b.now) }
{
    let first = a.coverage();
    let second = b.coverage();
    checked_count(first.members.len() + second.members.len())?;
    paired_regions(alloc, first, second)
}

// The pairs of the regions between the noded edges of both, and the polygons of the regions of each pair.
fn paired_regions(alloc: Global, a: &Coverage, b: &Coverage) -> Result<Overlaid, OverlayError>
    requires first { AllInRange a.now }
    requires second { AllInRange b.now }
    requires few { length a.now + length b.now < 2 ^ 32 }
    ensures overlaid { IfOk result (λ out. IsOverlaid a.now b.now out.pairs.items out.coverage) }
    ensures formed { IfOk result (λ out. IsFormed out.coverage) }
    ensures few_pairs { IfOk result (λ out. vec_len out.pairs < 2 ^ 32) }
    ensures refused { IfErr result (IsCause a.now b.now) }
{
    let live = live_edges(alloc, a, b)?;
    let arena = Arena::build(alloc, live.edges.to_vec(alloc)?)?;
    let regions = Regions::build(alloc, &arena)?;
    let labels = Labels::build(alloc, &arena, &regions, &live)?;
    let by_side = pairs_of_sides(alloc, &regions, &labels, a.members.len() as u32)?;
    let pairs = distinct_pairs(alloc, &by_side)?;
    let count = checked_count(pairs.len())?;
    let owners = places_of(alloc, &by_side, &pairs)?;
    let coverage = polygons(alloc, &arena, &regions, &owners, count)?;
    Ok(Overlaid { pairs, coverage })
}

// The count, where it is below 2^32.
fn checked_count(count: usize) -> Result<u32, OverlayError>
    ensures few { IfOk result (λ n. (n ≡ count) × (count < 2 ^ 32)) }
    ensures many { IfErr result (λ e. (2 ^ 32 ≤ count) × (e ≡ OverlayError.TooMany count)) }
{
    if count <= u32::MAX as usize {
        Ok(count as u32)
    } else {
        Err(OverlayError::TooMany {
            count: count as u64,
        })
    }
}
