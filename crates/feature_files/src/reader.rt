ghost use Rattle.std.specs.Prelude.{◌≤◌, false, length, IfOk, IfErr};
ghost use Rattle.cov_types.specs.Coverage.{IsFormed};
ghost use Rattle.geo_json.specs.Reading.{held};
ghost use Rattle.geo_text.specs.Decimal.{IsScale};
ghost use Rattle.geo_text.specs.declared.reader.TheConstants.{LONGEST_INPUT};
ghost use Rattle.feature_files.specs.Fault.{IsErrorBy, IsError};
ghost use Rattle.feature_files.specs.Reading.{IsTextRead, IsRead};

use crate::bare::bare_features;
use crate::error::FileError;
use file_form::is_json;
use geo_json::{Features, read_json};
use geo_text::read_text;
use std::alloc::Global;

// Reads text at the scale as features with null properties and no ids.
fn read_bare(alloc: Global, scale: Option<u8>, bytes: &[u8]) -> Result<Features, FileError>
    requires scale { IsScale scale }
    requires length { length bytes.now ≤ LONGEST_INPUT }
    ensures read { IfOk result (λ f. IsTextRead scale bytes.now (held f)) }
    ensures formed { IfOk result (λ f. IsFormed f.coverage) }
    ensures fault { IfErr result (IsErrorBy false scale bytes.now) }
{
    let coverage = read_text(alloc, bytes, scale)?;
    Ok(bare_features(alloc, coverage)?)
}

/// Reads a file of this name: GeoJSON, which has no scale, or text, whose numbers are whole without a scale, and at scale `k`,
/// from 0 to 7, the nearest to theirs times `10^k`. Linear in time and memory; properties and ids are those that were
/// parsed, not copies, and for text null.
pub fn read_features(
    alloc: Global,
    name: &str,
    scale: Option<u8>,
    bytes: &[u8],
) -> Result<Features, FileError>
    requires scale { IsScale scale }
    requires length { length bytes.now ≤ LONGEST_INPUT }
    ensures read { IfOk result (λ f. IsRead name.now scale bytes.now (held f)) }
    ensures formed { IfOk result (λ f. IsFormed f.coverage) }
    ensures fault { IfErr result (IsError name.now scale bytes.now) }
{
    if !is_json(name) {
        return read_bare(alloc, scale, bytes);
    }
    Ok(read_json(alloc, bytes)?)
}
