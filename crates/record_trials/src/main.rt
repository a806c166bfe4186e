// Lists of calls, refused and not allowed ones among them, tried on small channels.
#![tactic(auto)]

mod knot;
mod on_codes;
mod on_knots;
mod on_limits;
mod on_taps;
mod showing;
mod trial;

use std::io;

fn main(rt: HostRuntime) -> io::Result<()> {
    on_taps::try_all(&rt)?;
    on_codes::try_all(&rt)?;
    on_limits::try_all(&rt)?;
    on_knots::try_all(&rt)
}
