ghost use Rattle.std.specs.Prelude.{◌≡◌, ◌+◌, ◌≤ℤ◌, ℕ, pos, neg_ℤ};
ghost use Rattle.jittered_grid.specs.Draws.{HasDrawn, draw};

/// A linear congruential generator, from which -1, 0 and 1 are drawn. Its constants are those of Knuth and Lewis in Numerical Recipes.
#[derive(Drop)]
pub struct Draws {
    /// The seed at first, and then the state of the last draw.
    pub state: u32,
}

impl Draws {
    /// Nothing is drawn yet from the seed. Takes constant time.
    pub fn new(seed: u32) -> Draws
        ensures { HasDrawn result seed 0 }
    {
        Draws { state: seed }
    }

    /// The next draw: -1, 0 or 1. Takes constant time.
    pub fn next(&mut self) -> i32
        ensures value { (seed count : ℕ) → HasDrawn self.old seed count → result ≡ draw seed count }
        ensures drawn { (seed count : ℕ) → HasDrawn self.old seed count → HasDrawn self.new seed (count + 1) }
        ensures least { neg_ℤ (pos 1) ≤ℤ result }
        ensures greatest { result ≤ℤ pos 1 }
    {
        self.state = self
            .state
            .wrapping_mul(1_664_525)
            .wrapping_add(1_013_904_223);
        ((self.state >> 28) % 3) as i32 - 1
    }
}
