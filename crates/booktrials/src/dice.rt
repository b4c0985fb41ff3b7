//! A fixed succession of numbers that look as if they came by chance.

ghost use Rattle.std.specs.Prelude.{◌<◌};

#[derive(Drop)]
pub struct Dice {
    state: u32,
}

impl Dice {
    pub fn new(state: u32) -> Dice {
        Dice { state }
    }

    /// The next number, below `n`: the upper half of the state, whose digits repeat latest.
    pub fn below(&mut self, n: u16) -> u16
        requires { 0 < n }
        ensures { result < n }
    {
        self.state = self.state.wrapping_mul(1664525).wrapping_add(1013904223);
        let [_, _, low, high] = self.state.to_le_bytes();
        u16::from_le_bytes([low, high]) % n
    }
}
