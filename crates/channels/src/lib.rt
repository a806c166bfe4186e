// Small channels, worked out by hand, as a theorem about the definitions that the calls of a record promise.
#![tactic(auto)]

ghost use Rattle.channels.specs.Channels.{SmallChannels};

// What is said of the small channels holds.
pub fn channels_stand()
    ensures { SmallChannels }
{}
