// The trellis of a channel, made from its setup.
ghost use Rattle.std.specs.Prelude.{◌≡◌};
ghost use Rattle.descriptions.specs.Channels.{channel_meaning, channel_of, code_of, taps_of, run_length_of};
ghost use Rattle.trellises.specs.Codes.{code_meaning};
ghost use Rattle.trellises.specs.Taps.{taps_meaning};
ghost use Rattle.trellises.specs.RunLengths.{run_length_meaning};
ghost use Rattle.descriptions.specs.ChannelLaws.{channel_lawful};

use lines::form::{CodeLine, RllLine, TapsLine};
use model::trellis::Trellis;
use setups::setup::TrellisSetup;
use trellises::cascade::Cascade;
use trellises::code::Code;
use trellises::run_length::RunLength;
use trellises::taps::Taps;

// One of the four kinds of trellis that a description can set up. An enum, since a dyn value would lie on the heap or be
// handed out by the function that makes it.
#[derive(Drop)]
pub enum Channel {
    Taps(Taps),
    Code(Code),
    CodeOverTaps(Cascade<Code, Taps>),
    RllOverTaps(Cascade<RunLength, Taps>),
}

// The trellis of a code line. These three are functions, since a From between two types of other crates is not allowed.
pub fn code_from(line: &CodeLine) -> Code
    ensures { code_meaning result ≡ code_of line.now }
{
    Code::new(
        line.constraint_length,
        line.inversion,
        line.generators.as_slice(),
    )
}

// The trellis of a taps line.
pub fn taps_from(line: &TapsLine) -> Taps
    ensures { taps_meaning result ≡ taps_of line.now }
{
    Taps::new(line.letters, line.taps.as_slice())
}

// The trellis of an rll line.
pub fn run_length_from(line: &RllLine) -> RunLength
    ensures { run_length_meaning result ≡ run_length_of line.now }
{
    RunLength::new(line.d, line.k)
}

// The trellis of a setup; refused parameters make the bare one.
impl From<&TrellisSetup> for Channel {
    ghost from_gives = { λ setup channel. channel_meaning channel ≡ channel_of setup.now };

    fn from(setup: &TrellisSetup) -> Channel {
        match setup {
            TrellisSetup::Taps(taps) => Channel::Taps(taps_from(taps)),
            TrellisSetup::Code(code) => Channel::Code(code_from(code)),
            TrellisSetup::CodeOverTaps(code, taps) => Channel::CodeOverTaps(Cascade::new(
                code_from(code),
                taps_from(taps),
            )),
            TrellisSetup::RllOverTaps(rll, taps) => Channel::RllOverTaps(Cascade::new(
                run_length_from(rll),
                taps_from(taps),
            )),
        }
    }
}

impl Channel {
    pub fn new(setup: &TrellisSetup) -> Channel
        ensures { channel_meaning result ≡ channel_of setup.now }
    {
        Channel::from(setup)
    }
}

impl Trellis for Channel {
    ghost meaning = { channel_meaning };

    ghost lawful = { λ t. channel_lawful t };

    fn states(&self) -> usize {
        match self {
            Channel::Taps(trellis) => trellis.states(),
            Channel::Code(trellis) => trellis.states(),
            Channel::CodeOverTaps(trellis) => trellis.states(),
            Channel::RllOverTaps(trellis) => trellis.states(),
        }
    }

    fn letters(&self) -> usize {
        match self {
            Channel::Taps(trellis) => trellis.letters(),
            Channel::Code(trellis) => trellis.letters(),
            Channel::CodeOverTaps(trellis) => trellis.letters(),
            Channel::RllOverTaps(trellis) => trellis.letters(),
        }
    }

    fn branch(&self, state: usize, letter: usize) -> Option<(usize, i16)> {
        match self {
            Channel::Taps(trellis) => trellis.branch(state, letter),
            Channel::Code(trellis) => trellis.branch(state, letter),
            Channel::CodeOverTaps(trellis) => trellis.branch(state, letter),
            Channel::RllOverTaps(trellis) => trellis.branch(state, letter),
        }
    }
}
