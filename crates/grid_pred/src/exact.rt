//! Steps of whole-number arithmetic, none of which wraps. Of two numbers in range, 2^28 at most, a difference and a sum are
//! 2^29 at most.
ghost use Rattle.std.specs.Prelude.{◌≡◌, ◌^◌, ◌+ℤ◌, ◌-ℤ◌, ◌*ℤ◌};
ghost use Rattle.integer_laws.specs.Bound.{IsWithin};

/// a - b.
pub fn difference(a: i32, b: i32) -> i64
    ensures exact { result ≡ a -ℤ b }
    ensures small { IsWithin (2 ^ 32) result }
{
    a as i64 - b as i64
}

/// a + b.
pub fn sum(a: i32, b: i32) -> i64
    ensures exact { result ≡ a +ℤ b }
    ensures small { IsWithin (2 ^ 32) result }
{
    a as i64 + b as i64
}

/// a·b, of numbers small enough for 64 bits.
pub fn product(a: i64, b: i64) -> i64
    requires a_small { IsWithin (2 ^ 30) a }
    requires b_small { IsWithin (2 ^ 30) b }
    ensures exact { result ≡ a *ℤ b }
    ensures small { IsWithin (2 ^ 60) result }
{
    a * b
}

/// a·b, in 128 bits.
pub fn wide_product(a: i64, b: i64) -> i128
    ensures exact { result ≡ a *ℤ b }
    ensures small { IsWithin (2 ^ 126) result }
{
    a as i128 * b as i128
}
