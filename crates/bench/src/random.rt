// Numbers that look random, the same in every run.
ghost use Rattle.std.specs.Prelude.{◌<◌};

#[derive(Clone, Copy)]
pub(crate) struct Random {
    state: u64,
}

impl Random {
    pub(crate) fn new() -> Random {
        Random {
            state: 0x9e37_79b9_7f4a_7c15,
        }
    }

    // The next 64 bits.
    fn next(&mut self) -> u64 {
        let mut x = self.state;
        x ^= x << 13;
        x ^= x >> 7;
        x ^= x << 17;
        self.state = x;
        x
    }

    // The next number below a bound, 0 where the bound is 0.
    pub(crate) fn below(&mut self, bound: u64) -> u64
        ensures { 0 < bound → result < bound }
    {
        (self.next() >> 32).checked_rem(bound).unwrap_or(0)
    }
}
