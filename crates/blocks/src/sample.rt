// The samples of a payload.
ghost use Rattle.std.specs.Prelude.{◌≡◌, ◌+◌, ◌*◌, ◌<◌, length, OnSome};
ghost use Rattle.std.specs.List.{slice_get};
ghost use Rattle.std.specs.Iterator.{YieldsFirst, item_count};
ghost use Rattle.blocks.specs.Samples.{sample_of, samples_of};

use std::marker::Model;

// The samples of a payload in their order, seen as the list of those that are left.
#[derive(Drop)]
pub struct Samples<'a> {
    bytes: &'a [u8],
}

impl<'a> Model for Samples<'a> {
    ghost use Rattle.std.specs.Prelude.{List, ℤ};
    ghost use Rattle.blocks.specs.Samples.{samples_of};

    ghost Value = { List ℤ };

    ghost view = { λ s. samples_of s.bytes.now };
}

impl<'a> Samples<'a> {
    // A byte that is left over is no sample.
    pub fn new(payload: &'a [u8]) -> Samples<'a>
        ensures { result ≡ samples_of payload.now }
    {
        Samples { bytes: payload }
    }
}

impl Iterator for Samples<'_> {
    type Item = i16;

    ghost next_gives = { YieldsFirst (λ left. left) };

    ghost remaining = { item_count (λ left. left) };

    fn next(&mut self) -> Option<i16> {
        // A slice pattern: of split_first_chunk a proof would not know what is left.
        let [low, high, bytes @ ..] = self.bytes else {
            return None;
        };
        self.bytes = bytes;
        Some(sample_of(*low, *high))
    }
}

// The sample that two bytes stand for.
fn sample_of(low: u8, high: u8) -> i16
    ensures { result ≡ sample_of low high }
{
    i16::from_le_bytes([low, high])
}

// How many samples a payload has.
#[tactic(auto, using(crate::proofs::Sampling::length_samples))]
pub fn sample_count(payload: &[u8]) -> usize
    ensures { result ≡ length (samples_of payload.now) }
{
    payload.len() / 2
}

// The sample at an index, or nothing past the last one.
pub fn sample_at(payload: &[u8], i: usize) -> Option<i16>
    ensures value { result ≡ slice_get (samples_of payload.now) i }
    ensures within { OnSome result (2 * i + 1 < length payload.now) }
{
    let (pairs, _) = payload.as_chunks::<2>();
    let [low, high] = pairs.get(i)?;
    Some(sample_of(*low, *high))
}
