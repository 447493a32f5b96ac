ghost use Rattle.std.specs.Prelude.{pos, ◌<ℤ◌};

/// The point `(num_x/den, num_y/den)` in which two segments cross.
#[derive(Clone, Copy, Debug, PartialEq, Eq)]
pub struct Cross {
    pub num_x: i128,
    pub num_y: i128,
    pub den: i128,
    pub ghost positive: { pos 0 <ℤ den },
}
