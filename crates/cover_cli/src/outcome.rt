ghost use Rattle.std.specs.Prelude.{◌≡◌, IfOk};
ghost use Rattle.std.specs.String.{string_bytes};
ghost use Rattle.cover_cli.specs.Outcome.{status_of, message_of, fault_text, json_fault_text, points_fault_text, mark_text, sampled_text};

use cov_locate::PointsFault;
use cov_types::NoMemory;
use cov_valid::{Kind, Mark};
use geo_json::JsonFault;
use geo_text::TextFault;
use std::alloc::Global;

/// What a call of `cover` came to.
#[derive(Clone, Copy, Debug, PartialEq, Eq)]
pub enum Outcome {
    /// The output was written, and nothing is at fault.
    Done,
    /// The output was written, and it lists this many segments that are at fault.
    Marked {
        edges: u64,
    },
    /// A sample was written, which has so many members, polygons of members, and points of rings without closing repeats.
    Sampled {
        members: u64,
        polygons: u64,
        points: u64,
    },
    /// The words name no operation, or not as it takes them.
    Usage,
    /// The input could not be read.
    ReadFault,
    /// The output could not be written whole.
    WriteFault,
    /// The input is longer than a file may be.
    TooLong,
    /// The input is no text that can be read.
    BadText(TextFault),
    /// The input is no GeoJSON that can be read.
    BadJson(JsonFault),
    /// The points file lists no points that can be read.
    BadPoints(PointsFault),
    /// The coverage that the input is read as is not valid: its first segment that is at fault.
    NotValid {
        mark: Mark,
    },
    /// Two coverages have so many members together, or so many pairs, that they have no overlay: 2^32 or more.
    TooMany {
        count: u64,
    },
    /// Memory ran out before the output was created.
    NoMemory,
}

/// The exit status of the program. Takes constant time.
pub fn status(o: &Outcome) -> u8
    ensures { result ≡ status_of o.now }
{
    match o {
        Outcome::Done => 0,
        Outcome::Sampled {
            members: _,
            polygons: _,
            points: _,
        } => 0,
        Outcome::Marked { edges: _ } => 1,
        Outcome::Usage => 2,
        Outcome::NotValid { mark: _ } => 3,
        Outcome::BadText(_) => 4,
        Outcome::BadJson(_) => 5,
        Outcome::TooLong => 6,
        Outcome::ReadFault => 7,
        Outcome::WriteFault => 8,
        Outcome::NoMemory => 9,
        Outcome::BadPoints(_) => 10,
        Outcome::TooMany { count: _ } => 11,
    }
}

/// The line that the program prints, without its line end. Takes constant time.
pub fn message(alloc: Global, o: &Outcome) -> Result<String, NoMemory>
    ensures { IfOk result (λ text. string_bytes text ≡ message_of o.now) }
{
    let text = match o {
        Outcome::Marked { edges } => return Ok(format!(in alloc; "marked {edges}")?),
        Outcome::Sampled {
            members,
            polygons,
            points,
        } => return sampled_message(alloc, *members, *polygons, *points),
        Outcome::NotValid { mark } => return mark_message(
            alloc,
            mark.member,
            mark.place,
            mark.kind,
        ),
        Outcome::TooMany { count } => return Ok(format!(in alloc; "too many: {count}")?),
        Outcome::BadText(fault) => return fault_message(alloc, *fault),
        Outcome::BadJson(fault) => return json_fault_message(alloc, *fault),
        Outcome::BadPoints(fault) => return points_fault_message(alloc, *fault),
        Outcome::Done => "done",
        Outcome::Usage =>
            "usage: cover validate|clean|simplify|union|node|regions|sample|locate|overlay",
        Outcome::ReadFault => "cannot read",
        Outcome::WriteFault => "cannot write",
        Outcome::TooLong => "input is longer than 67108864 bytes",
        Outcome::NoMemory => "no memory",
    };
    Ok(String::from_str(alloc, text)?)
}

// The line that is printed for a sample with these counts.
fn sampled_message(
    alloc: Global,
    members: u64,
    polygons: u64,
    points: u64,
) -> Result<String, NoMemory>
    ensures { IfOk result (λ text. string_bytes text ≡ sampled_text members polygons points) }
{
    Ok(format!(in alloc; "sampled: members {members}, polygons {polygons}, points {points}")?)
}

// The line that is printed for a coverage that is not valid.
fn mark_message(alloc: Global, member: u32, place: u64, kind: Kind) -> Result<String, NoMemory>
    ensures { IfOk result (λ text. string_bytes text ≡ mark_text member place kind) }
{
    Ok(match kind {
        Kind::Meets => format!(in alloc; "not valid: member {member} place {place} meets")?,
        Kind::Repeated => format!(in alloc; "not valid: member {member} place {place} repeated")?,
        Kind::SameSide => format!(in alloc; "not valid: member {member} place {place} same side")?,
        Kind::Inside => format!(in alloc; "not valid: member {member} place {place} inside")?,
        Kind::NarrowGap => format!(in alloc;
            "not valid: member {member} place {place} narrow gap"
        )?,
    })
}

// The line that is printed for a fault of a text.
fn fault_message(alloc: Global, fault: TextFault) -> Result<String, NoMemory>
    ensures { IfOk result (λ text. string_bytes text ≡ fault_text fault) }
{
    Ok(match fault {
        TextFault::Syntax { at } => format!(in alloc; "text: syntax at {at}")?,
        TextFault::NotPlanar { at } => format!(in alloc; "text: not planar at {at}")?,
        TextFault::NotWhole { at } => format!(in alloc; "text: not whole at {at}")?,
        TextFault::OutOfRange { at } => format!(in alloc; "text: out of range at {at}")?,
        TextFault::RingShort { ring } => format!(in alloc; "text: ring {ring} is short")?,
        TextFault::RingOpen { ring } => format!(in alloc; "text: ring {ring} is open")?,
    })
}

// The line that is printed for a fault of a GeoJSON document.
fn json_fault_message(alloc: Global, fault: JsonFault) -> Result<String, NoMemory>
    ensures { IfOk result (λ text. string_bytes text ≡ json_fault_text fault) }
{
    Ok(match fault {
        JsonFault::NotJson => String::from_str(alloc, "json: not JSON")?,
        JsonFault::BadShape { feature } => format!(in alloc;
            "json: bad shape in feature {feature}"
        )?,
        JsonFault::NotPlanar { feature } => format!(in alloc;
            "json: not planar in feature {feature}"
        )?,
        JsonFault::NotWhole { feature } => format!(in alloc;
            "json: not whole in feature {feature}"
        )?,
        JsonFault::OutOfRange { feature } => format!(in alloc;
            "json: out of range in feature {feature}"
        )?,
        JsonFault::RingShort { ring } => format!(in alloc; "json: ring {ring} is short")?,
        JsonFault::RingOpen { ring } => format!(in alloc; "json: ring {ring} is open")?,
    })
}

// The line that is printed for a fault of a points file.
fn points_fault_message(alloc: Global, fault: PointsFault) -> Result<String, NoMemory>
    ensures { IfOk result (λ text. string_bytes text ≡ points_fault_text fault) }
{
    Ok(match fault {
        PointsFault::Syntax { line } => format!(in alloc; "points: syntax in line {line}")?,
        PointsFault::OutOfRange { line } => format!(in alloc;
            "points: out of range in line {line}"
        )?,
    })
}
