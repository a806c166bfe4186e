// Sums over paths, tried on a trellis and in an algebra that are made for it.
#![tactic(auto)]

mod distance;
mod matrices;
mod matrix;
mod tangle;
mod trials;

use crate::trials::{Trial, try_all, try_short};
use std::io;

fn main(rt: HostRuntime) -> io::Result<()> {
    let trials = [
        Trial {
            name: "no samples",
            samples: &[],
            start: None,
            end: None,
        },
        Trial {
            name: "one state",
            samples: &[],
            start: Some(2),
            end: None,
        },
        Trial {
            name: "one sample",
            samples: &[1],
            start: None,
            end: None,
        },
        Trial {
            name: "into state 0",
            samples: &[1],
            start: None,
            end: Some(0),
        },
        Trial {
            name: "from state 0",
            samples: &[1, 0, 2],
            start: Some(0),
            end: None,
        },
        Trial {
            name: "into the dead end",
            samples: &[1, 1, -1, 2, 1, 5],
            start: Some(0),
            end: Some(3),
        },
        Trial {
            name: "out of the dead end",
            samples: &[0],
            start: Some(3),
            end: None,
        },
        Trial {
            name: "no such start",
            samples: &[1, 1],
            start: Some(4),
            end: None,
        },
        Trial {
            name: "no such end",
            samples: &[1, 1],
            start: None,
            end: Some(18446744073709551615),
        },
        Trial {
            name: "far samples",
            samples: &[-32768, 32767, 300],
            start: None,
            end: Some(1),
        },
        Trial {
            name: "twelve samples",
            samples: &[2, -1, 1, 0, 3, 1, 1, -2, 2, 5, 0, 1],
            start: None,
            end: Some(1),
        },
    ];
    for trial in trials {
        try_all(&rt, trial)?;
    }
    try_short(
        &rt,
        Trial {
            name: "short rows",
            samples: &[1],
            start: None,
            end: None,
        },
    )
}
