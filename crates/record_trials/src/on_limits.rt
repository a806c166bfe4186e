// Trials on the run-length limit 2 to 3.
use crate::trial::{Trial, settled_after, try_each};
use measures::erasing::Erasing;
use measures::square::Square;
use records::call::Call::{Anchor, Report, Resume, Settle, Take};
use std::io;
use trellises::run_length::RunLength;

pub(crate) fn try_all(rt: &HostRuntime) -> io::Result<()> {
    let mut full = settled_after::<514>(1);
    full[0] = Anchor(Some(0), Some(0));
    let limit = RunLength::new(2, 3);
    try_each(
        rt,
        || limit,
        Erasing::new(Square),
        &[
            // No path on one and on two samples, one on three.
            Trial::new(
                "limit, no path before the third sample",
                &[
                    Anchor(Some(0), Some(0)),
                    Take(0),
                    Settle,
                    Report(8, 0),
                    Resume,
                    Take(0),
                    Settle,
                    Report(8, 0),
                    Report(8, 9),
                    Resume,
                    Take(0),
                    Settle,
                    Report(8, 0),
                ],
            ),
            // As many samples as a record holds.
            Trial::new("limit, a full record", &full)
                .with_quiet(513)
                .with_room(512, 0),
        ],
    )
}
