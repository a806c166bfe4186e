// Reads a description.
ghost use Rattle.std.specs.Prelude.{◌≡◌, drop, Ok};
ghost use Rattle.setups.specs.declared.setup.Setup.{Setup};
ghost use Rattle.model.specs.Refusals.{outcome};
ghost use Rattle.descriptions.specs.Descriptions.{is_short, description, Describes, AnyOrder};

use crate::check::check_setup;
use model::refusal::{Fault, Layer, Refusal};
use setups::held::read_lines;
use setups::setup::Setup;

// The most bytes that one block carries.
const MOST_BYTES: usize = 65535;

// The setup of the description that begins at a place of the bytes and goes to their end, or the first fault. The bytes are
// not cut at the place, since the places of faults count from their front.
pub fn read_description(bytes: &[u8], from: usize) -> Result<Setup, Fault>
    ensures value { outcome result ≡ description from (drop from bytes.now) }
    ensures accepts { (s : Setup) → (result ≡ Ok s → Describes (drop from bytes.now) s) × (Describes (drop from bytes.now) s → result ≡ Ok s) }
    ensures order { AnyOrder (drop from bytes.now) }
{
    read(bytes, from)
}

// Whether the description that begins at a place is no longer than a block carries.
fn is_short_from(bytes: &[u8], from: usize) -> bool
    ensures { result ≡ is_short (drop from bytes.now) }
{
    bytes.len().saturating_sub(from) <= MOST_BYTES
}

// The reading alone: that it accepts exactly what describes a setup follows from its value, not from its steps.
fn read(bytes: &[u8], from: usize) -> Result<Setup, Fault>
    ensures { outcome result ≡ description from (drop from bytes.now) }
{
    if !is_short_from(bytes, from) {
        return Err(Refusal::RecordingLarge.at(Layer::Blocks, 0));
    }
    let held = read_lines(bytes, from)?;
    let setup = held.setup().ok_or(Refusal::LineSet.at(Layer::Lines, from))?;
    check_setup(&setup, &held)?;
    Ok(setup)
}
