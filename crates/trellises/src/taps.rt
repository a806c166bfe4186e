// The channel with taps.
ghost use Rattle.std.specs.Prelude.{◌≡◌, ◌*◌, ◌^◌, ◌<◌, ◌≤◌, true, length, ◌*ℤ◌, unsigned_abs};
ghost use Rattle.std.specs.Result.{result_ok};
ghost use Rattle.model.specs.Bare.{or_bare};
ghost use Rattle.model.specs.Refusals.{answer};
ghost use Rattle.trellises.specs.Checks.{tap_fits};
ghost use Rattle.trellises.specs.Digits.{digits_of};
ghost use Rattle.trellises.specs.Taps.{level, tapped, taps_of, next_state, taps_label, taps_check, taps_trellis, channel_meaning, taps_meaning, TapsByLetters};
ghost use Rattle.trellises.specs.Channels.{channel_lawful};

use crate::or_bare::OrBare;
use crate::ranges::all_between;
use arrays::list::FixedList;
use model::refusal::Refusal;
use model::trellis::Trellis;

mod channel;

use channel::Channel;

// The state holds the last letters, the newest highest; without a channel the trellis is bare.
pub type Taps = OrBare<Channel>;

impl Taps {
    // Whether the parameters are in range.
    pub fn check(letters: i32, taps: &[i32]) -> Result<(), Refusal>
        ensures { answer result ≡ taps_check letters taps.now }
    {
        let most = match letters {
            2 => 7,
            4 => 4,
            _ => return Err(Refusal::TapsLetters),
        };
        if !(1..=most).contains(&taps.len()) {
            return Err(Refusal::TapsCount);
        }
        if !all_between(-127, 127, taps) {
            return Err(Refusal::TapValue);
        }
        Ok(())
    }

    // The channel, bare where its parameters are refused.
    pub fn new(letters: i32, taps: &[i32]) -> Self
        ensures { taps_meaning result ≡ taps_trellis letters taps.now }
    {
        OrBare {
            accepted: Channel::new(letters, taps).ok(),
        }
    }
}

impl Channel {
    // The channel of parameters in range, else why they are refused.
    fn new(letters: i32, taps: &[i32]) -> Result<Self, Refusal>
        ensures { or_bare channel_meaning (result_ok result) ≡ taps_trellis letters taps.now }
    {
        Taps::check(letters, taps)?;
        let letters = letters as usize;
        Ok(Channel {
            letters,
            taps: FixedList::from_slice(0, taps),
            states: letters.pow((taps.len() - 1) as u32),
        })
    }

    // The level that a letter stands for.
    fn level_of(&self, letter: usize) -> i32
        requires { letter < self.now.letters }
        ensures { result ≡ level self.now.letters letter }
    {
        2 * letter as i32 - (self.letters as i32 - 1)
    }

    // What one tap adds to the label: at most 127 times 3 in size.
    fn term(&self, tap: i32, letter: usize) -> i32
        requires small { tap_fits tap ≡ true }
        requires below { letter < self.now.letters }
        ensures value { result ≡ tap *ℤ level self.now.letters letter }
        ensures bound { unsigned_abs result ≤ 381 }
    {
        tap * self.level_of(letter)
    }

    // The sum of the taps times the levels of a register's letters, the newest first.
    fn label(&self, register: usize) -> i16
        requires { register < self.now.letters * self.now.states }
        ensures { result ≡ tapped self.now.letters (taps_of self.now) (digits_of self.now.letters (length (taps_of self.now)) register) }
    {
        let mut sum = 0;
        let mut place = self.letters * self.states;
        let mut rest = register;
        for tap in self.taps.as_slice() {
            place /= self.letters;
            sum += self.term(*tap, rest / place);
            rest %= place;
        }
        sum as i16
    }

    // The next state and the label.
    fn step(&self, state: usize, letter: usize) -> (usize, i16)
        requires state { state < self.now.states }
        requires letter { letter < self.now.letters }
        ensures next { result.0 ≡ next_state self.now.letters (taps_of self.now) state letter }
        ensures label { result.1 ≡ taps_label self.now.letters (taps_of self.now) state letter }
    {
        let register = letter * self.states + state;
        (register / self.letters, self.label(register))
    }
}

impl Trellis for Channel {
    ghost meaning = { channel_meaning };

    ghost lawful = { λ c. channel_lawful c };

    fn states(&self) -> usize {
        self.states
    }

    fn letters(&self) -> usize {
        self.letters
    }

    fn branch(&self, state: usize, letter: usize) -> Option<(usize, i16)> {
        (state < self.states && letter < self.letters).then(|| self.step(state, letter))
    }
}

// A theorem: the letters of a next state are the new letter and those of the state, without the oldest.
pub fn taps_stand()
    ensures { TapsByLetters }
{}
