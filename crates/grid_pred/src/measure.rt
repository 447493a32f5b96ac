ghost use Rattle.std.specs.Prelude.{◌≡◌, ◌≤◌, ◌*◌, ◌^◌, ◌-ℤ◌, unsigned_abs};
ghost use Rattle.integer_laws.specs.Bound.{IsWithin};
ghost use Rattle.cov_types.specs.Range.{IsSegInRange};
ghost use Rattle.plane.specs.Length.{root, edge_length};

use cov_types::Seg;

/// The square root of a number, rounded down. Takes constant time.
pub fn root(n: u128) -> u128
    ensures { result ≡ root n }
{
    n.isqrt()
}

/// The length of a segment in 1/256 units, rounded down. Takes constant time.
pub fn edge_len(s: Seg) -> u64
    requires in_range { IsSegInRange s }
    ensures { result ≡ edge_length s }
{
    root(65536 * (square(s.lo.x, s.hi.x) + square(s.lo.y, s.hi.y))) as u64
}

// The square of the distance of two numbers.
fn square(a: i32, b: i32) -> u128
    requires a_small { IsWithin (2 ^ 28) a }
    requires b_small { IsWithin (2 ^ 28) b }
    ensures exact { result ≡ unsigned_abs (b -ℤ a) * unsigned_abs (b -ℤ a) }
    ensures small { result ≤ 2 ^ 58 }
{
    let distance = b.abs_diff(a) as u128;
    distance * distance
}
