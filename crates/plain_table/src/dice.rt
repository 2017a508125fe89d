ghost use Rattle.std.specs.Prelude.{◌<◌, ◌≤◌, length};

// Numbers that look random, and are the same in each run.
#[derive(Drop)]
pub(crate) struct Dice {
    state: u64,
}

impl Dice {
    pub(crate) fn new(seed: u64) -> Dice {
        Dice { state: seed }
    }

    // A number below another one, or 0 below 0.
    pub(crate) fn below(&mut self, n: usize) -> usize
        ensures within { result ≤ n }
        ensures below { 0 < n → result < n }
    {
        self.state = self.state.wrapping_add(0x9e37_79b9_7f4a_7c15);
        let x = self.state;
        let y = (x ^ (x >> 30)).wrapping_mul(0xbf58_476d_1ce4_e5b9);
        let z = (y ^ (y >> 27)).wrapping_mul(0x94d0_49bb_1331_11eb);
        ((z ^ (z >> 31)) as usize).checked_rem(n).unwrap_or(0)
    }

    // Whether something comes that does so many times in a hundred.
    pub(crate) fn comes(&mut self, in_a_hundred: usize) -> bool {
        self.below(100) < in_a_hundred
    }

    // One of some things.
    pub(crate) fn pick<T: Copy>(&mut self, things: &[T]) -> T
        requires { 0 < length things.now }
    {
        things[self.below(things.len())]
    }
}
