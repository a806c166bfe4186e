// Reads a recording from standard input, and prints what is detected in it or why it is refused.
#![tactic(auto)]

use anyhow::ensure;
use outcomes::text::detect_text;
use std::io::{Read, Write};

// One byte more than the largest recording is enough to tell that one is too large.
const ENOUGH: u64 = 65537;

fn main(rt: HostRuntime) -> anyhow::Result<()> {
    let mut recording = Vec::new(rt.alloc());
    rt.stdin().take(ENOUGH).read_to_end(&mut recording)?;
    let detected = detect_text(rt.alloc(), &recording)?;
    let (Ok(text) | Err(text)) = &detected;
    rt.stdout().write_all(text)?;
    ensure!(detected.is_ok(), "the recording is refused");
    Ok(())
}
