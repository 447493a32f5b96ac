ghost use Rattle.std.specs.Prelude.{◌≡◌, [], ◌++◌, ◌∷◌, OnOk, IsOkUnless, List};
ghost use Rattle.serde_json.specs.View.{view};
ghost use Rattle.geo_json.specs.Shape.{FeatureShape};
ghost use Rattle.geo_json.specs.Reading.{polys_of_feature};
ghost use Rattle.geo_json.specs.Collecting.{AreCollected};

use crate::error::JsonError;
use crate::feature::Feature;
use cov_types::Member;
use serde_json::Value;
use std::alloc::Global;

/// The features of a document so far, how many they are, and the number of the next ring.
#[derive(Drop)]
pub(crate) struct Collected {
    pub(crate) members: Vec<Member>,
    pub(crate) properties: Vec<Value>,
    pub(crate) ids: Vec<Value>,
    pub(crate) count: u32,
    pub(crate) rings: u32,
}

impl Collected {
    pub(crate) fn new(alloc: Global) -> Collected
        ensures read { AreCollected [] result }
        ensures rings { result.rings ≡ 0 }
    {
        Collected {
            members: Vec::new(alloc),
            properties: Vec::new(alloc),
            ids: Vec::new(alloc),
            count: 0,
            rings: 0,
        }
    }

    /// Puts a feature behind the others.
    pub(crate) fn push(&mut self, feature: Feature) -> Result<(), JsonError>
        ensures read { OnOk result ((features : List FeatureShape) (shape : FeatureShape) → AreCollected features self.old
            → feature.shapes.polys.items ≡ polys_of_feature shape → view feature.properties ≡ shape.properties → view feature.id ≡ shape.id
            → AreCollected (features ++ shape ∷ []) self.new) }
        ensures rings { OnOk result (self.new.rings ≡ feature.shapes.rings) }
        ensures memory { IsOkUnless result JsonError.NoMemory }
    {
        self.count = self.count.checked_add(1).ok_or(JsonError::NoMemory)?;
        self.rings = feature.shapes.rings;
        self.members.push(Member {
            polys: feature.shapes.polys,
        })?;
        self.properties.push(feature.properties)?;
        self.ids.push(feature.id)?;
        Ok(())
    }
}
