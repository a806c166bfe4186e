// What a label becomes on its way.
use crate::random::Random;

// A kind of noise, without a state of its own.
pub(crate) trait Noise: Drop {
    // The sample that arrives for a label.
    fn sample(&self, random: &mut Random, label: i16) -> i16;
}

// Each of the two lowest bits flipped once in sixteen times.
#[derive(Clone, Copy)]
pub(crate) struct Flips;

// At most 3 more or less.
#[derive(Clone, Copy)]
pub(crate) struct Small;

// A label with a bit of the mask flipped, once in sixteen times.
fn flipped(random: &mut Random, label: i16, mask: i16) -> i16 {
    if random.below(16) == 0 {
        label ^ mask
    } else {
        label
    }
}

impl Noise for Flips {
    fn sample(&self, random: &mut Random, label: i16) -> i16 {
        let low = flipped(random, label, 1);
        flipped(random, low, 2)
    }
}

impl Noise for Small {
    fn sample(&self, random: &mut Random, label: i16) -> i16 {
        let step = random.below(7) as i16 - 3;
        label.saturating_add(step)
    }
}
