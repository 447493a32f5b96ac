ghost use Rattle.std.specs.Prelude.{All, Any, IfOk, OnOk};
ghost use Rattle.cov_types.specs.Range.{IsSegInRange};
ghost use Rattle.hot_pixel.specs.Centres.{AreHotCentres, Gains, HasEnd};

use crate::along_curve::{points_along_curve, segments_along_curve};
use crate::crossings::add_crossings;
use cov_types::{Coord, NoMemory, Seg};
use std::alloc::Global;

/// The centres of the hot pixels of segments, each at least once.
pub(crate) fn hot_centres(alloc: Global, segs: &[Seg]) -> Result<Vec<Coord>, NoMemory>
    requires { All IsSegInRange segs.now }
    ensures { IfOk result (λ centres. AreHotCentres segs.now centres.items) }
{
    let distinct = segments_along_curve(alloc, segs)?;
    let along = distinct.as_slice();
    let mut centres = Vec::new(alloc);
    add_ends(&mut centres, along)?;
    add_crossings(alloc, &mut centres, along)?;
    points_along_curve(alloc, centres.as_slice())
}

fn add_ends(centres: &mut Vec<Coord>, segs: &[Seg]) -> Result<(), NoMemory>
    ensures { OnOk result (Gains centres.old.items centres.new.items (λ r. Any (λ s. HasEnd s r) segs.now)) }
{
    for s in segs {
        centres.push(s.lo)?;
        centres.push(s.hi)?;
    }
    Ok(())
}
