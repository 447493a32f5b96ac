ghost use Rattle.std.specs.Prelude.{◌≡◌, ◌==◌, ◌≤◌, All, IfOk, MatchResult, length};
ghost use Rattle.std.specs.List.{after_first, before_first, position_or_len};
ghost use Rattle.cov_types.specs.Range.{IsInRange};
ghost use Rattle.cov_locate.specs.Points.{ArePoints, IsFaultOf};
ghost use Rattle.geo_text.specs.declared.reader.TheConstants.{LONGEST_INPUT};

use crate::line::{Line, read_line};
use cov_types::Coord;
use std::alloc::{AllocError, AllocFailed, Global};
use thiserror::Error;

/// Why a points file is not read. Lines are numbered from 0, blank ones included.
#[derive(Clone, Copy, Debug, PartialEq, Eq, Error)]
pub enum PointsFault {
    /// The line is neither blank nor two numbers.
    #[error("syntax in line {line}")]
    Syntax { line: u64 },
    /// The line is two numbers, and one of them is out of range.
    #[error("out of range in line {line}")]
    OutOfRange { line: u64 },
}

/// What `read_points` answers in place of points.
#[derive(Debug, Drop, Error)]
pub enum PointsError {
    #[error("points: {0}")]
    Fault(PointsFault),
    #[error("no memory")]
    NoMemory,
}

impl<T: Drop> From<AllocFailed<T>> for PointsError {
    ghost use Rattle.std.specs.Prelude.{◌≡◌};
    ghost use Rattle.cov_locate.specs.declared.points.PointsError.TheVariants.{NoMemory};

    ghost from_gives = { λ _ e. e ≡ NoMemory };

    fn from(_e: AllocFailed<T>) -> PointsError {
        PointsError::NoMemory
    }
}

/// The points of a points file, in grid units, in the order of its lines: a line has two numbers apart by white space, or white space
/// alone and no point. The first line that is otherwise, or has a number out of range, is the fault. At most `LONGEST_INPUT` of
/// `geo_text` bytes. Takes time and memory in proportion to the bytes.
pub fn read_points(alloc: Global, bytes: &[u8]) -> Result<Vec<Coord>, PointsError>
    requires { length bytes.now ≤ LONGEST_INPUT }
    ensures exact { MatchResult result (λ points. ArePoints bytes.now points.items) (IsFaultOf bytes.now) }
    ensures in_range { IfOk result (λ points. All IsInRange points.items) }
{
    let mut points = Vec::new(alloc);
    let mut rest = bytes;
    let mut number = 0u64;
    while !rest.is_empty() {
        let (line, after) = split_line(rest);
        match read_line(line) {
            Line::Blank => {}
            Line::Point(p) => points.push(p)?,
            Line::Syntax => return Err(PointsError::Fault(PointsFault::Syntax { line: number })),
            Line::OutOfRange => {
                return Err(PointsError::Fault(PointsFault::OutOfRange { line: number }));
            }
        }
        rest = after;
        number += 1;
    }
    Ok(points)
}

// What stands before the first line feed, and what behind it.
fn split_line(bytes: &[u8]) -> (&[u8], &[u8])
    ensures line { result.0.now ≡ before_first (λ b. b == 10) bytes.now }
    ensures after { result.1.now ≡ after_first (λ b. b == 10) bytes.now }
{
    let end = end_of_line(bytes);
    if end < bytes.len() {
        (&bytes[..end], &bytes[end + 1..])
    } else {
        (bytes, &bytes[end..])
    }
}

// Where the first line feed stands; the length where there is none.
fn end_of_line(bytes: &[u8]) -> usize
    ensures exact { result ≡ position_or_len (λ b. b == 10) bytes.now }
    ensures within { result ≤ length bytes.now }
{
    bytes
        .iter()
        .position(|b| *b == b'\n')
        .unwrap_or(bytes.len())
}
