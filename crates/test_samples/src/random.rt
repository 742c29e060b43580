// Random numbers from a 64-bit state that each draw moves on: Marsaglia's xorshift with the shifts
// 13, 7 and 17.
ghost use Rattle.std.specs.Prelude.{◌-◌, ◌≤◌};

// Kept: TryFrom would have a refusal that never comes.
fn high(x: u64) -> u32 {
    (x >> 32) as u32
}

#[derive(Clone, Copy, Debug)]
pub struct Random {
    state: u64,
}

impl Random {
    pub fn new(seed: u64) -> Random {
        Random { state: seed }
    }

    pub fn next(&mut self) -> u32 {
        let mut x = self.state;
        x ^= x << 13;
        x ^= x >> 7;
        x ^= x << 17;
        self.state = x;
        high(x)
    }

    // A number below n, or 0 where n is 0.
    pub fn below(&mut self, n: u32) -> u32
        ensures { result ≤ n - 1 }
    {
        let x = self.next();
        if n == 0 { 0 } else { x % n }
    }

    // The same of places and lengths.
    // Kept: std has no From of u32 for usize.
    pub fn index(&mut self, n: u32) -> usize
        ensures { result ≤ n - 1 }
    {
        self.below(n) as usize
    }

    pub fn one_in(&mut self, n: u32) -> bool {
        self.below(n) == 0
    }

    // A power of two, or the number before or after one.
    fn near_power(&mut self) -> u32 {
        let power = 1u32 << self.below(32);
        match self.below(3) {
            0 => power,
            1 => power.wrapping_sub(1),
            _ => power.wrapping_add(1),
        }
    }

    // A number that is often at an edge: small, the largest, or near a power of two.
    pub fn edge(&mut self) -> u32 {
        match self.below(8) {
            0 => 0,
            1 => 1,
            2 => u32::MAX,
            3 | 4 => self.near_power(),
            5 => self.below(12),
            6 => self.below(300),
            _ => self.next(),
        }
    }
}
