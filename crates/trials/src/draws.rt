// The random numbers, the same on every run.
ghost use Rattle.std.specs.Prelude.{◌<◌};

/// A generator of random numbers.
// A draw is the switch where one is matched on: so many of n go each way.
#[derive(Clone, Copy)]
pub struct Draws {
    seed: u32,
}

impl Draws {
    /// The draws that begin with a seed.
    pub fn new(seed: u32) -> Draws {
        Draws { seed }
    }

    /// Draws a number below n, 0 where n is 0: the upper half of the next seed's bits. The next seed is 1664525 s + 1013904223, which wraps at 2^32.
    pub fn below(&mut self, n: usize) -> usize
        ensures { 0 < n → result < n }
    {
        let seed = self.seed.wrapping_mul(1664525).wrapping_add(1013904223);
        self.seed = seed;
        let upper = (seed / 65536) as usize;
        if n == 0 { 0 } else { upper % n }
    }
}
