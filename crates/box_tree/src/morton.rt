ghost use Rattle.std.specs.Prelude.{◌≡◌};
ghost use Rattle.box_tree.specs.Curve.{above_least, spread, curve_of};

use cov_types::Coord;

/// The place of a point along a curve that keeps near points together: the bits of its two numbers in turn (Morton order).
/// Takes constant time.
pub fn curve(p: Coord) -> u64
    ensures { result ≡ curve_of p }
{
    spread(above_least(p.x)) | (spread(above_least(p.y)) << 1)
}

// How far a number is above the least i32.
fn above_least(n: i32) -> u64
    ensures { result ≡ above_least n }
{
    (n as i64 + (1 << 31)) as u64
}

// The lower half of the bits, each moved to twice its place.
fn spread(n: u64) -> u64
    ensures { result ≡ spread n }
{
    let pairs = (n | (n << 16)) & 0x0000_ffff_0000_ffff;
    let bytes = (pairs | (pairs << 8)) & 0x00ff_00ff_00ff_00ff;
    let halves = (bytes | (bytes << 4)) & 0x0f0f_0f0f_0f0f_0f0f;
    let quarters = (halves | (halves << 2)) & 0x3333_3333_3333_3333;
    (quarters | (quarters << 1)) & 0x5555_5555_5555_5555
}
