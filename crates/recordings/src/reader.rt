// Reads a recording, and detects the letters behind its samples.
ghost use Rattle.std.specs.Prelude.{◌≡◌, length};
ghost use Rattle.model.specs.Refusals.{outcome};
ghost use Rattle.model.specs.Trellises.{Lawful};
ghost use Rattle.measures.specs.Erasings.{erasing};
ghost use Rattle.descriptions.specs.Channels.{channel_meaning, channel_of, measure_meaning, measure_of};
ghost use Rattle.recordings.specs.Recordings.{recording as recorded, outcome_in, buffer_after, detected_from, held_at_first};
ghost use Rattle.recordings.specs.Recorded.{Accepts};
ghost use Rattle.recordings.specs.Steps.{Lawfully};

use crate::outcome::Outcome;
use crate::steps::{detect_at, read_blocks, read_setup};
use descriptions::channel::Channel;
use descriptions::measure::{ChannelMeasure, measure_from};
use measures::erasing::Erasing;
use model::refusal::{Fault, Layer, Refusal};
use records::listening::Listening;
use setups::setup::Setup;

// The most bytes that a recording has.
pub const MOST_BYTES: usize = 65536;

// A new record over the channel of a setup, anchored as the setup says.
fn record_for(setup: &Setup) -> Listening<Channel, Erasing<ChannelMeasure>>
    ensures trellis { channel_meaning result.seen.trellis ≡ channel_of setup.now.trellis }
    ensures measure { erasing (measure_meaning result.seen.measure.below) ≡ measure_of setup.now.measure }
    ensures held { result.seen.held ≡ held_at_first setup.now }
{
    let mut record = Listening::new(Channel::new(&setup.trellis), measure_from(&setup.measure));
    let _ = record.anchor(setup.start, setup.end);
    record
}

// What is detected in a recording whose setup is known, from its second block on.
fn detect_from(
    recording: &[u8],
    letters: &mut [u8],
    at: usize,
    setup: &Setup,
    from: usize,
) -> Result<Outcome, Fault>
    ensures value { outcome result ≡ outcome_in (detected_from recording.now at (length letters.old) setup.now from) }
    ensures letters { letters.new ≡ buffer_after (detected_from recording.now at (length letters.old) setup.now from) at letters.old }
    ensures lawful { Lawful (channel_of setup.now.trellis) }
{
    let mut record = record_for(setup);
    let end = read_blocks(recording, from, &mut record)?;
    detect_at(record, end, letters, at)
}

// Reads a recording and writes the letters of the reported path into a buffer, from a place of the buffer on. Buffer and
// place stay two arguments, as C hands them over and a record's report takes them.
pub fn read_recording(recording: &[u8], letters: &mut [u8], at: usize) -> Result<Outcome, Fault>
    ensures value { outcome result ≡ outcome_in (recorded recording.now at (length letters.old)) }
    ensures letters { letters.new ≡ buffer_after (recorded recording.now at (length letters.old)) at letters.old }
    ensures accepts { Accepts recording.now at letters.old letters.new (outcome result) }
{
    read(recording, letters, at)
}

// The reading alone, by the definition of what a recording gives: which recordings it accepts follows from that.
fn read(recording: &[u8], letters: &mut [u8], at: usize) -> Result<Outcome, Fault>
    ensures value { outcome result ≡ outcome_in (recorded recording.now at (length letters.old)) }
    ensures letters { letters.new ≡ buffer_after (recorded recording.now at (length letters.old)) at letters.old }
    ensures lawful { Lawfully recording.now }
{
    if recording.len() > MOST_BYTES {
        return Err(Refusal::RecordingLarge.at(Layer::Blocks, 0));
    }
    let (setup, from) = read_setup(recording)?;
    detect_from(recording, letters, at, &setup, from)
}
