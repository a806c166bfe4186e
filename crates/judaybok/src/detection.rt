// Detects the letters behind a recording, for a caller in C.
ghost use Rattle.std.specs.Prelude.{◌≡◌, length};
ghost use Rattle.recordings.specs.Recordings.{recording as recorded, buffer_after};
ghost use Rattle.judaybok.specs.Answers.{answer_to};

use crate::answer::JudaybokAnswer;
use recordings::reader::read_recording;

// Reads a recording, writes the letters of the reported path into the buffer, from a place on and nothing elsewhere,
// and fills the answer. A refused recording leaves the buffer as it was. Returns the answer's number.
#[unsafe(no_mangle)]
pub extern "C" fn judaybok_detect(
    recording: &[u8],
    letters: &mut [u8],
    place: usize,
    answer: &mut JudaybokAnswer,
) -> u32
    ensures answer { answer.new ≡ answer_to (recorded recording.now place (length letters.old)) }
    ensures number { result ≡ (answer_to (recorded recording.now place (length letters.old))).number }
    ensures letters { letters.new ≡ buffer_after (recorded recording.now place (length letters.old)) place letters.old }
{
    *answer = read_recording(recording, letters, place).into();
    answer.number
}
