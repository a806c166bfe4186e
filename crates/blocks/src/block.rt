// Reads one block of a recording.
ghost use Rattle.std.specs.Prelude.{◌≡◌, ◌^◌, ◌<◌, ◌≤◌, length, IfOk, Ok};
ghost use Rattle.std.specs.Option.{option_map as mapped-some};
ghost use Rattle.std.specs.Result.{result_map_both};
ghost use Rattle.model.specs.Refusals.{outcome, refused, refusal_number};
ghost use Rattle.blocks.specs.Blocks.{Content, parts, frame_of, content, content_of, payload_of, next_place, first_block, contents, block_at};
ghost use Rattle.blocks.specs.Standing.{Stands};

use crate::kind::Kind;
use model::refusal::{Fault, Layer, Refusal};

// How many bytes stand before a payload: two for its length and two for the kind.
pub const HEADER_SIZE: usize = 4;

// What a block carries.
#[derive(Clone, Copy, Debug, PartialEq, Eq)]
pub enum Block<'a> {
    Description(&'a [u8]),
    Samples(&'a [u8]),
    End,
}

impl<'a> Block<'a> {
    pub fn payload(self) -> &'a [u8]
        ensures { result.now ≡ payload_of (content self.entry) }
    {
        match self {
            Block::Description(payload) | Block::Samples(payload) => payload,
            Block::End => &[],
        }
    }
}

// A block whose kind is only a number yet, and the bytes after it.
#[derive(Clone, Copy)]
struct Frame<'a> {
    kind: u16,
    payload: &'a [u8],
    rest: &'a [u8],
}

// The block at the front, if its header and its payload are whole.
fn frame_of(bytes: &[u8]) -> Option<Frame<'_>>
    ensures { mapped-some parts result ≡ frame_of bytes.now }
{
    let [l0, l1, k0, k1, payload_and_rest @ ..] = bytes else {
        return None;
    };
    let len = usize::from(u16::from_le_bytes([*l0, *l1]));
    let (payload, rest) = payload_and_rest.split_at_checked(len)?;
    Some(Frame {
        kind: u16::from_le_bytes([*k0, *k1]),
        payload,
        rest,
    })
}

// What a payload is in a block of a kind.
fn block_of(kind: Kind, payload: &[u8]) -> Block<'_>
    ensures { content result ≡ content_of kind payload.now }
{
    match kind {
        Kind::Description => Block::Description(payload),
        Kind::Samples => Block::Samples(payload),
        Kind::End => Block::End,
    }
}

// The block at the front, or the first check that it fails.
fn first_block(bytes: &[u8], is_first: bool) -> Result<Block<'_>, Refusal>
    ensures { result_map_both content refusal_number result ≡ first_block bytes.now is_first }
{
    let frame = frame_of(bytes).ok_or(Refusal::BlockCut)?;
    let kind = Kind::try_from(frame.kind)?;
    if !kind.may_stand(is_first) {
        return Err(Refusal::BlockOrder);
    }
    if !kind.may_carry(frame.payload) {
        return Err(Refusal::PayloadLength);
    }
    if !kind.may_precede(frame.rest) {
        return Err(Refusal::BytesAfterEnd);
    }
    Ok(block_of(kind, frame.payload))
}

// The block that begins at a place. What is wrong with it is found where it begins.
fn block_from(recording: &[u8], place: usize, is_first: bool) -> Result<Block<'_>, Fault>
    ensures { result_map_both content refused result ≡ block_at recording.now place is_first }
{
    let bytes = recording.get(place..).unwrap_or_default();
    first_block(bytes, is_first).map_err(|refusal| refusal.at(Layer::Blocks, place))
}

// Where the block that begins at a place ends.
fn end_of(block: Block, place: usize) -> usize
    requires { next_place place (content block) < 2 ^ 64 }
    ensures { result ≡ next_place place (content block.entry) }
{
    place + HEADER_SIZE + block.payload().len()
}

// The block that begins at a place and where the next one begins, or what is wrong with it.
pub fn block_at(recording: &[u8], place: usize, is_first: bool) -> Result<(Block<'_>, usize), Fault>
    ensures value { contents (outcome result) ≡ block_at recording.now place is_first }
    ensures next { IfOk result (λ b. b.1 ≡ next_place place (content b.0)) }
    ensures within { IfOk result (λ b. b.1 ≤ length recording.now) }
    ensures accepts { (c : Content) → (contents (outcome result) ≡ Ok c → Stands recording.now place is_first c) × (Stands recording.now place is_first c → contents (outcome result) ≡ Ok c) }
{
    let block = block_from(recording, place, is_first)?;
    Ok((block, end_of(block, place)))
}
