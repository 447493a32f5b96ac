ghost use Rattle.std.specs.Prelude.{◌≡◌, ◌∷◌, [], length, IfOk};
ghost use Rattle.cov_types.specs.Coverage.{IsFormed};
ghost use Rattle.cov_types.specs.Uses.{uses_of};
ghost use Rattle.plane.specs.Validity.{IsValid};
ghost use Rattle.cov_union.specs.United.{IsUnited};
ghost use Rattle.sound_polygons.specs.Holding.{IsUnionOf};

use crate::owners::union_owners;
use crate::rim::rim_of;
use cov_admit::ValidCoverage;
use cov_build::polygons;
use cov_types::{Coverage, Member, NoMemory};
use face_walk::Regions;
use half_edge::Arena;
use owner_label::Labels;
use std::alloc::Global;

/// The union of a valid coverage: one member that holds what some member of it holds, in canonical order. Takes n log n time in the
/// number of segments, and beside it that of `Regions::build` for the segments that only one member has; memory in proportion to it.
pub fn union_of(alloc: Global, v: &ValidCoverage) -> Result<Member, NoMemory>
    ensures polygons { IfOk result (λ m. IsUnited v.now (m ∷ [])) }
    ensures union { IfOk result (λ m. IsUnionOf v.now (m ∷ [])) }
    ensures valid { IfOk result (λ m. IsValid (uses_of (m ∷ []))) }
    ensures formed { IfOk result (λ m. IsFormed (m ∷ [])) }
{
    let rim = rim_of(alloc, v.coverage())?;
    let arena = Arena::build(alloc, rim.edges.to_vec(alloc)?)?;
    let regions = Regions::build(alloc, &arena)?;
    let labels = Labels::build(alloc, &arena, &regions, &rim)?;
    let owners = union_owners(alloc, &regions, &labels)?;
    drop(labels);
    drop(rim);
    let union = polygons(alloc, &arena, &regions, &owners, 1)?;
    Ok(only_member(union))
}

// The member of a coverage that has just one.
fn only_member(c: Coverage) -> Member
    requires { length c ≡ 1 }
    ensures { c ≡ result ∷ [] }
{
    let Coverage { mut members } = c;
    members.remove(0)
}
