// Trials on the taps 1, 1 with two letters.
use crate::trial::{Trial, settled_after, try_each};
use measures::erasing::Erasing;
use measures::square::Square;
use records::call::Call::{Anchor, Report, Resume, Rewind, Settle, Take, Weigh};
use std::io;
use trellises::taps::Taps;

fn run(rt: &HostRuntime, trials: &[Trial<'_>]) -> io::Result<()> {
    let taps = Taps::new(2, &[1, 1]);
    try_each(rt, || taps, Erasing::new(Square), trials)
}

// A few samples, and none.
fn try_few(rt: &HostRuntime) -> io::Result<()> {
    run(
        rt,
        &[
            Trial::new(
                "three samples",
                &[Take(0), Take(2), Take(1), Settle, Report(3, 0), Weigh(2, 2)],
            ),
            Trial::new("two samples", &[Take(-1), Take(0), Settle]).with_room(8, 3),
            Trial::new("no samples", &[Settle]),
            Trial::new("an erased sample", &[Take(-32768), Settle]),
            Trial::new(
                "from any state to state 1",
                &[
                    Anchor(None, Some(1)),
                    Take(-2),
                    Take(-32768),
                    Take(32767),
                    Settle,
                ],
            ),
            Trial::new("no calls", &[]),
            Trial::new("never settled", &[Take(0), Take(2)]),
        ],
    )
}

// Each refusal, and what it leaves.
fn try_refused(rt: &HostRuntime) -> io::Result<()> {
    run(
        rt,
        &[
            Trial::new(
                "numbers of no state",
                &[
                    Anchor(Some(-1), None),
                    Anchor(Some(2), None),
                    Anchor(Some(1), Some(2)),
                    Anchor(None, Some(-2147483648)),
                    Anchor(Some(2147483647), Some(0)),
                    Take(-2),
                    Settle,
                ],
            ),
            Trial::new(
                "anchored twice, then refused",
                &[
                    Anchor(Some(0), Some(0)),
                    Anchor(Some(1), Some(1)),
                    Anchor(Some(0), Some(7)),
                    Take(-2),
                    Settle,
                ],
            ),
            Trial::new(
                "anchored after a sample",
                &[
                    Take(2),
                    Anchor(Some(1), None),
                    Anchor(Some(9), None),
                    Settle,
                ],
            ),
            Trial::new(
                "rewound to nothing and anchored",
                &[
                    Take(0),
                    Take(2),
                    Anchor(Some(1), Some(0)),
                    Rewind(0),
                    Anchor(Some(1), Some(0)),
                    Take(2),
                    Take(1),
                    Settle,
                ],
            ),
            Trial::new(
                "rewound to as many, to more and to fewer",
                &[
                    Rewind(0),
                    Rewind(1),
                    Take(0),
                    Take(2),
                    Take(1),
                    Rewind(3),
                    Rewind(4),
                    Rewind(18446744073709551615),
                    Rewind(2),
                    Rewind(3),
                    Settle,
                ],
            ),
            Trial::new(
                "too few bytes",
                &[
                    Take(0),
                    Take(2),
                    Take(1),
                    Settle,
                    Report(2, 0),
                    Report(3, 0),
                    Report(3, 1),
                    Report(4, 1),
                    Report(3, 3),
                    Report(3, 4),
                    Report(3, 18446744073709551615),
                    Report(1024, 1021),
                    Report(1024, 1022),
                    Report(5000, 1021),
                    Report(5000, 1022),
                ],
            )
            .with_room(5, 3),
            Trial::new(
                "no letters, at the end of the buffer",
                &[
                    Settle,
                    Report(0, 0),
                    Report(5, 5),
                    Report(5, 6),
                    Report(0, 1),
                ],
            )
            .with_room(4, 4),
            Trial::new("no letters, past the buffer", &[Settle]).with_room(4, 5),
            Trial::new(
                "short rows",
                &[
                    Take(1),
                    Settle,
                    Weigh(2, 2),
                    Weigh(1, 2),
                    Weigh(2, 1),
                    Weigh(0, 0),
                    Weigh(64, 3),
                    Weigh(2, 18446744073709551615),
                ],
            ),
        ],
    )
}

// Settled and resumed, and calls that the state has not.
fn try_states(rt: &HostRuntime) -> io::Result<()> {
    run(
        rt,
        &[
            Trial::new(
                "settled three times, with rewinds between",
                &[
                    Take(0),
                    Take(2),
                    Take(1),
                    Settle,
                    Report(3, 0),
                    Resume,
                    Rewind(1),
                    Take(-2),
                    Settle,
                    Report(2, 0),
                    Resume,
                    Take(-2),
                    Take(0),
                    Rewind(3),
                    Settle,
                ],
            ),
            Trial::new(
                "rewound after it was settled, and anchored elsewhere",
                &[
                    Take(0),
                    Take(2),
                    Settle,
                    Resume,
                    Rewind(0),
                    Anchor(Some(1), Some(0)),
                    Take(0),
                    Take(-2),
                    Settle,
                ],
            ),
            Trial::new(
                "settled again and again",
                &[Take(2), Settle, Resume, Settle, Resume, Settle],
            ),
            Trial::new(
                "reported before it is settled",
                &[Take(0), Report(8, 0), Take(2), Settle, Report(8, 0)],
            ),
            Trial::new(
                "a sample after it is settled",
                &[
                    Take(2),
                    Settle,
                    Take(-2),
                    Report(8, 0),
                    Resume,
                    Take(-2),
                    Settle,
                ],
            ),
            Trial::new(
                "every call that a state has not",
                &[
                    Resume,
                    Report(8, 0),
                    Weigh(2, 2),
                    Settle,
                    Anchor(Some(0), None),
                    Take(0),
                    Rewind(0),
                    Settle,
                    Resume,
                ],
            ),
        ],
    )
}

// Long lists of calls.
fn try_many(rt: &HostRuntime) -> io::Result<()> {
    let mut full = [Take(0); 521];
    full[100..102].fill(Take(2));
    full[512..].copy_from_slice(&[
        Take(1),
        Rewind(513),
        Rewind(511),
        Take(2),
        Take(2),
        Anchor(None, None),
        Settle,
        Report(512, 0),
        Report(511, 0),
    ]);
    let erased = settled_after::<65>(-32768);
    let less_erased = settled_after::<64>(-32768);
    let mut erased_from_any = erased;
    erased_from_any[0] = Anchor(None, None);
    run(
        rt,
        &[
            // As many samples as a record holds, and one more.
            Trial::new("full", &full).with_quiet(512).with_room(516, 2),
            // Nothing but erased samples: every path costs nothing, and there are 2 ^ 64 of them, which wraps to 0.
            Trial::new("64 erased samples", &erased)
                .with_quiet(64)
                .with_room(66, 1),
            // One sample less: half as many.
            Trial::new("63 erased samples", &less_erased)
                .with_quiet(63)
                .with_room(63, 0),
            // From either state, twice as many again.
            Trial::new("63 erased samples from any state", &erased_from_any)
                .with_quiet(64)
                .with_room(63, 0),
        ],
    )
}

pub(crate) fn try_all(rt: &HostRuntime) -> io::Result<()> {
    try_few(rt)?;
    try_refused(rt)?;
    try_states(rt)?;
    try_many(rt)
}
