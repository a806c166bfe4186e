// Trials on convolutional codes, alone and over one tap.
ghost use Rattle.std.specs.Prelude.{◌≡◌};
ghost use Rattle.trellises.specs.Codes.{code_meaning};
ghost use Rattle.trellises.specs.Examples.{small_code};

use crate::trial::{Trial, try_each};
use measures::bits::Bits;
use measures::erasing::Erasing;
use measures::square::Square;
use records::call::Call::{Anchor, Report, Settle, Take, Weigh};
use std::io;
use trellises::cascade::Cascade;
use trellises::code::Code;
use trellises::taps::Taps;

// The code of constraint length 3 with the octal generators 7 and 5.
fn small_code() -> Code
    ensures { code_meaning result ≡ small_code }
{
    Code::new(3, 0, &[0o7, 0o5])
}

// The small code.
fn try_small(rt: &HostRuntime) -> io::Result<()> {
    try_each(
        rt,
        small_code,
        Erasing::new(Bits::new(2)),
        &[
            Trial::new(
                "code back to state 0",
                &[Anchor(Some(0), Some(0)), Take(3), Take(2), Take(2), Settle],
            ),
            Trial::new(
                "code with no way to the end",
                &[
                    Anchor(Some(0), Some(3)),
                    Take(3),
                    Settle,
                    Report(8, 0),
                    Report(0, 0),
                    Weigh(4, 4),
                ],
            ),
            Trial::new(
                "code from any state",
                &[
                    Anchor(Some(3), Some(4)),
                    Anchor(None, None),
                    Take(3),
                    Take(-32768),
                    Take(2),
                    Take(7),
                    Take(-1),
                    Settle,
                    Weigh(3, 4),
                    Weigh(4, 3),
                ],
            ),
        ],
    )
}

// The CCSDS code, with as many states as a trellis may have.
fn try_ccsds(rt: &HostRuntime) -> io::Result<()> {
    let code = Code::new(7, 1, &[0o171, 0o133]);
    try_each(
        rt,
        || code,
        Erasing::new(Bits::new(2)),
        &[Trial::new(
            "ccsds code",
            &[
                Anchor(Some(64), None),
                Anchor(Some(0), Some(63)),
                Take(2),
                Take(0),
                Take(-32768),
                Take(3),
                Take(1),
                Take(1),
                Take(2),
                Take(3),
                Settle,
                Weigh(64, 64),
                Weigh(63, 64),
                Weigh(64, 63),
            ],
        )],
    )
}

// The small code over one tap of 1 with so many letters.
fn try_over(rt: &HostRuntime, letters: i32, trial: Trial<'_>) -> io::Result<()> {
    let tap = Taps::new(letters, &[1]);
    try_each(
        rt,
        || Cascade::new(small_code(), tap),
        Erasing::new(Square),
        &[trial],
    )
}

// The code over four letters, where each of its labels is a letter.
fn try_over_four(rt: &HostRuntime) -> io::Result<()> {
    try_over(
        rt,
        4,
        Trial::new(
            "code over four letters",
            &[Take(3), Take(1), Take(2), Take(-3), Settle],
        ),
    )
}

// The code over two letters, where the branches with the labels 2 and 3 are missing.
fn try_over_two(rt: &HostRuntime) -> io::Result<()> {
    try_over(
        rt,
        2,
        Trial::new(
            "code over two letters",
            &[Anchor(None, None), Take(1), Take(-1), Take(0), Settle],
        ),
    )
}

pub(crate) fn try_all(rt: &HostRuntime) -> io::Result<()> {
    try_small(rt)?;
    try_ccsds(rt)?;
    try_over_four(rt)?;
    try_over_two(rt)
}
