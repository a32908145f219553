//! Numbers as if drawn at random.

ghost use Rattle.std.specs.Prelude.{◌<◌};

/// Draws numbers of 32 bits: Vigna's xorshift64*, the upper half of each product.
#[derive(Drop)]
pub struct Draws {
    x: u64,
}

impl Draws {
    /// Begins with a number, which isn't 0.
    pub fn of(seed: u64) -> Draws {
        Draws { x: seed }
    }

    /// A number below `n`.
    pub fn below(&mut self, n: u32) -> u32
        requires { 0 < n }
        ensures { result < n }
    {
        self.x ^= self.x >> 12;
        self.x ^= self.x << 25;
        self.x ^= self.x >> 27;
        let product = self.x.wrapping_mul(0x2545_f491_4f6c_dd1d);
        ((product >> 32) as u32) % n
    }
}
