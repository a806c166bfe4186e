// Reads a channel description from standard input, and prints the channel that it sets up or the refusal.
#![tactic(auto)]

use anyhow::ensure;
use listings::listing::describe_text;
use std::io::{Read, Write};

// One byte more than a block carries is enough to tell a description that is too long.
const ENOUGH: u64 = 65536;

fn main(rt: HostRuntime) -> anyhow::Result<()> {
    let mut description = Vec::new(rt.alloc());
    rt.stdin().take(ENOUGH).read_to_end(&mut description)?;
    let described = describe_text(rt.alloc(), &description)?;
    let (Ok(text) | Err(text)) = &described;
    rt.stdout().write_all(text)?;
    ensure!(described.is_ok(), "the description is refused");
    Ok(())
}
