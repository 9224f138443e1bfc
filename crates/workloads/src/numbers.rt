//! Numbers that look random, the same on every machine from the same seed.
ghost use Rattle.std.specs.Prelude.{◌<◌, ◌^◌};

/// A linear congruential generator, of which the upper bits are taken.
#[derive(Drop)]
pub struct Numbers {
    state: u64,
}

impl Numbers {
    pub fn new(seed: u64) -> Numbers {
        Numbers {
            state: seed.wrapping_mul(0x9e37_79b9_7f4a_7c15).wrapping_add(1),
        }
    }

    /// The next 31 bits.
    pub fn next(&mut self) -> u64
        ensures { result < 2 ^ 31 }
    {
        self.state = self
            .state
            .wrapping_mul(6_364_136_223_846_793_005)
            .wrapping_add(1_442_695_040_888_963_407);
        self.state >> 33
    }

    /// A number below the limit.
    pub fn below(&mut self, limit: usize) -> usize
        requires { 0 < limit }
        ensures { result < limit }
    {
        self.next() as usize % limit
    }

    pub fn byte(&mut self) -> u8 {
        (self.next() % 256) as u8
    }
}
