ghost use Rattle.std.specs.Prelude.{◌≡◌, ◌⊎◌, ◌≤◌, ℕ, List, [], ◌∷◌, length, map, codes, Some, IsErrOf, IfOk, OnOk};
ghost use Rattle.cov_types.specs.Coverage.{IsFormed};
ghost use Rattle.serde_json.specs.Data.{Data, object};
ghost use Rattle.serde_json.specs.View.{view, members_view};
ghost use Rattle.geo_json.specs.Shape.{items_of, member_of, feature_of, lone_feature, collected, document_of};
ghost use Rattle.geo_json.specs.Reading.{Reading, StandsFor, held, Reads};
ghost use Rattle.geo_json.specs.Fault.{first, faults_from, fault_of, IsFault, HasNoFault};
ghost use Rattle.geo_json.specs.Collecting.{AreAllRead};
ghost use Rattle.geo_json.specs.declared.error.JsonFault.{JsonFault};
ghost use Rattle.geo_text.specs.declared.reader.TheConstants.{LONGEST_INPUT};

use crate::collected::Collected;
use crate::error::{JsonError, JsonFault};
use crate::feature::{bad_shape, read_feature, read_lone_feature};
use crate::features::Features;
use crate::geometry::is_of_type;
use crate::object::{into_items, into_members, taken};
use cov_types::Coverage;
use serde_json::{Map, Value};
use std::alloc::Global;

/// The value that the bytes stand for.
fn parse(alloc: Global, bytes: &[u8]) -> Result<Value, JsonError>
    ensures ok { IfOk result (λ v. StandsFor bytes.now (view v)) }
    ensures fault { (fault : JsonFault) → IsErrOf result (JsonError.Fault fault)
        → (fault ≡ JsonFault.NotJson) × ((d : Data) → StandsFor bytes.now d → ⊥) }
{
    match Value::from_slice(alloc, bytes) {
        Ok(value) => Ok(value),
        Err(e) => {
            if e.is_memory() {
                return Err(JsonError::NoMemory);
            }
            Err(JsonError::Fault(JsonFault::NotJson))
        }
    }
}

/// The features of a list.
fn listed(alloc: Global, list: Vec<Value>) -> Result<Collected, JsonError>
    ensures ok { IfOk result (λ c. AreAllRead (map feature_of (map view list.items)) c) }
    ensures fault { (fault : JsonFault) → IsErrOf result (JsonError.Fault fault)
        → first (faults_from 0 0 (map feature_of (map view list.items))) ≡ Some fault }
{
    let mut all = Collected::new(alloc);
    for value in list {
        let read = read_feature(alloc, value, all.count, all.rings)?;
        all.push(read)?;
    }
    Ok(all)
}

/// The features of a FeatureCollection that has these members.
fn collection(alloc: Global, mut members: Map<String, Value>) -> Result<Collected, JsonError>
    ensures ok { IfOk result (λ c. AreAllRead (collected (items_of (member_of (codes "features") (object (members_view members.entries))))) c) }
    ensures fault { (fault : JsonFault) → IsErrOf result (JsonError.Fault fault)
        → first (faults_from 0 0 (collected (items_of (member_of (codes "features") (object (members_view members.entries)))))) ≡ Some fault }
{
    match into_items(taken(&mut members, "features")) {
        Some(list) => listed(alloc, list),
        None => Err(bad_shape(0)),
    }
}

/// The feature of a document that is no FeatureCollection.
fn lone(alloc: Global, value: Value) -> Result<Collected, JsonError>
    ensures ok { IfOk result (λ c. AreAllRead (lone_feature (view value) ∷ []) c) }
    ensures fault { (fault : JsonFault) → IsErrOf result (JsonError.Fault fault)
        → first (faults_from 0 0 (lone_feature (view value) ∷ [])) ≡ Some fault }
{
    let mut all = Collected::new(alloc);
    let read = read_lone_feature(alloc, value)?;
    all.push(read)?;
    Ok(all)
}

/// The features of a document.
fn document(alloc: Global, value: Value) -> Result<Collected, JsonError>
    ensures ok { IfOk result (λ c. AreAllRead (document_of (view value)) c) }
    ensures fault { (fault : JsonFault) → IsErrOf result (JsonError.Fault fault)
        → fault_of (view value) ≡ Some fault }
{
    if !is_of_type(&value, "FeatureCollection") {
        return lone(alloc, value);
    }
    match into_members(value) {
        Some(members) => collection(alloc, members),
        None => Err(bad_shape(0)),
    }
}

/// Reads a GeoJSON document of polygons: each feature is a member of the coverage, in order, with its properties and
/// its id. Linear in time and memory; the properties and ids are those that were parsed, not copies.
pub fn read_json(alloc: Global, bytes: &[u8]) -> Result<Features, JsonError>
    requires { length bytes.now ≤ LONGEST_INPUT }
    ensures read { IfOk result (λ c. Reads bytes.now (held c)) }
    ensures faultless { OnOk result (HasNoFault bytes.now) }
    ensures formed { IfOk result (λ c. IsFormed c.coverage) }
    ensures fault { (fault : JsonFault) → IsErrOf result (JsonError.Fault fault) → IsFault bytes.now fault }
{
    let value = parse(alloc, bytes)?;
    let all = document(alloc, value)?;
    Ok(Features {
        coverage: Coverage {
            members: all.members,
        },
        properties: all.properties,
        ids: all.ids,
    })
}

/// Laws of documents: bytes have at most one reading and at most one fault, and have a fault or are read without one.
/// A call does nothing.
pub fn one_answer()
    ensures reading { (bytes : List ℕ) (r s : Reading) → Reads bytes r → Reads bytes s → r ≡ s }
    ensures fault { (bytes : List ℕ) (e f : JsonFault) → IsFault bytes e → IsFault bytes f → e ≡ f }
    ensures either { (bytes : List ℕ)
        → ((r : Reading) × Reads bytes r × HasNoFault bytes) ⊎ ((fault : JsonFault) × IsFault bytes fault) }
{}
