// Trials on the knot, where ties are decided by the state before, against the letter.
use crate::knot::Knot;
use crate::trial::{Trial, try_each};
use measures::square::Square;
use records::call::Call::{Anchor, Report, Resume, Rewind, Settle, Take, Weigh};
use std::io;

pub(crate) fn try_all(rt: &HostRuntime) -> io::Result<()> {
    try_each(
        rt,
        || Knot,
        Square,
        &[
            Trial::new(
                "knot, one sample to state 0",
                &[Anchor(None, Some(0)), Take(1), Settle],
            ),
            Trial::new(
                "knot, two samples from 0 to 0",
                &[Anchor(Some(0), Some(0)), Take(1), Take(1), Settle],
            ),
            Trial::new(
                "knot, by two letters from one state",
                &[Anchor(Some(1), Some(1)), Take(-1), Take(2), Settle],
            ),
            Trial::new(
                "knot, settled twice on other samples",
                &[
                    Anchor(None, None),
                    Take(2),
                    Take(-1),
                    Take(2),
                    Take(1),
                    Settle,
                    Report(8, 0),
                    Resume,
                    Rewind(1),
                    Take(1),
                    Take(1),
                    Settle,
                ],
            )
            .with_room(7, 4),
            Trial::new(
                "knot, an erased sample where none is free",
                &[Take(-32768), Take(32767), Settle],
            ),
            Trial::new(
                "knot, no way to state 2",
                &[
                    Anchor(Some(2), Some(2)),
                    Take(2),
                    Settle,
                    Report(8, 0),
                    Weigh(3, 3),
                    Weigh(2, 3),
                    Weigh(3, 2),
                    Resume,
                    Take(-1),
                    Settle,
                    Report(8, 0),
                ],
            ),
        ],
    )
}
