//! Pseudorandom numbers.
ghost use Rattle.std.specs.Prelude.{◌≡◌, ◌<◌, ◌/◌, ◌%◌, ◌^◌};
ghost use Rattle.bl_gen.specs.Made.{next};

/// The state of the linear congruential generator that the C standard shows for `rand`, modulo
/// 2^31.
#[derive(Drop)]
pub struct Draws {
    pub state: u32,
}

impl Draws {
    /// The next number below n, which is at least 1: from the upper bits of the new state.
    pub fn draw(&mut self, n: u32) -> u32
        requires small { self.old.state < 2 ^ 31 }
        requires some { 0 < n }
        ensures state { self.new.state ≡ next self.old.state }
        ensures small { self.new.state < 2 ^ 31 }
        ensures number { result ≡ next self.old.state / 65536 % n }
        ensures below { result < n }
    {
        let product = 1_103_515_245 * u64::from(self.state) + 12_345;
        self.state = (product % 2_147_483_648) as u32;
        self.state / 65_536 % n
    }
}
