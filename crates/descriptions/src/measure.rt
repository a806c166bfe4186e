// The measure of a channel, made from its setup.
ghost use Rattle.std.specs.Prelude.{◌≡◌};
ghost use Rattle.descriptions.specs.Channels.{measure_meaning, measure_below, measure_of};
ghost use Rattle.measures.specs.Erasings.{erasing};
ghost use Rattle.descriptions.specs.ChannelLaws.{measure_bounded};

use lines::form::MeasureLine;
use measures::bits::Bits;
use measures::erasing::Erasing;
use measures::square::Square;
use model::measure::Measure;

// One of the two kinds of measure that a description can set up; an enum, as a channel is.
#[derive(Clone, Copy)]
pub enum ChannelMeasure {
    Square(Square),
    Bits(Bits),
}

impl Measure for ChannelMeasure {
    ghost costs = { measure_meaning };

    ghost bounded = { λ m label sample x y. measure_bounded m label sample x y };

    fn cost(&self, label: i16, sample: i16) -> u32 {
        match self {
            ChannelMeasure::Square(measure) => measure.cost(label, sample),
            ChannelMeasure::Bits(measure) => measure.cost(label, sample),
        }
    }
}

// The measure of a line, not yet under erasing; a refused width costs nothing.
impl From<&MeasureLine> for ChannelMeasure {
    ghost from_gives = { λ line measure. measure_meaning measure ≡ measure_below line.now };

    fn from(line: &MeasureLine) -> ChannelMeasure {
        match line {
            MeasureLine::Square => ChannelMeasure::Square(Square),
            MeasureLine::Bits(width) => ChannelMeasure::Bits(Bits::new(*width)),
        }
    }
}

// The measure of a line, under erasing.
pub fn measure_from(line: &MeasureLine) -> Erasing<ChannelMeasure>
    ensures { erasing (measure_meaning result.below) ≡ measure_of line.now }
{
    Erasing::new(ChannelMeasure::from(line))
}
