//! Pseudo-random numbers, the same in each run.

ghost use Rattle.std.specs.Prelude.{◌<◌};

/// Numbers that follow from one another from a fixed seed.
#[derive(Drop)]
pub struct Draws {
    pub state: u64,
}

impl Draws {
    /// Returns the next number, below the bound if the bound is above 0.
    pub fn next(&mut self, below: u32) -> u32
        ensures { 0 < below → result < below }
    {
        self.state = self
            .state
            .wrapping_mul(6364136223846793005)
            .wrapping_add(1442695040888963407);
        let high = (self.state >> 33) as u32;
        if below == 0 { 0 } else { high % below }
    }
}
