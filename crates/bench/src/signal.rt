// Random letters sent through a trellis, with noise on the labels.
use crate::noise::Noise;
use crate::random::Random;
use model::trellis::Trellis;

#[derive(Drop)]
pub(crate) struct Signal<T: Trellis, N: Noise> {
    trellis: T,
    noise: N,
    random: Random,
    state: usize,
}

impl<T: Trellis, N: Noise> Signal<T, N> {
    pub(crate) fn new(trellis: T, noise: N) -> Signal<T, N> {
        Signal {
            trellis,
            noise,
            random: Random::new(),
            state: 0,
        }
    }

    // A new frame starts in state 0.
    pub(crate) fn restart(&mut self) {
        self.state = 0;
    }

    // The sample for the next letter; a letter without a branch stays where it is and sends 0.
    pub(crate) fn sample(&mut self) -> i16 {
        let letter = self.random.below(self.trellis.letters() as u64);
        let branch = self.trellis.branch(self.state, letter as usize);
        let (state, label) = branch.unwrap_or((self.state, 0));
        self.state = state;
        self.noise.sample(&mut self.random, label)
    }
}
