// Reads many recordings from standard input, each after its length in four bytes, the lowest first, and prints what is
// detected in each or why it is refused.
#![tactic(auto)]

use crate::pieces::Pieces;
use outcomes::text::detect_text;
use std::io::{Read, Write};

mod pieces;

fn main(rt: HostRuntime) -> anyhow::Result<()> {
    let mut input = Vec::new(rt.alloc());
    rt.stdin().read_to_end(&mut input)?;
    for (number, recording) in (1u64..).zip(Pieces(&input)) {
        let (Ok(text) | Err(text)) = detect_text(rt.alloc(), recording)?;
        println!(rt; "recording {number}")?;
        rt.stdout().write_all(&text)?;
    }
    Ok(())
}
