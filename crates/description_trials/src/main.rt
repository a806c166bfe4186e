// Tries many descriptions: standard input holds them one after the other, each ended by byte 1.
#![tactic(auto)]

use listings::listing::describe_text;
use std::alloc::{AllocError, Global};
use std::io::{Read, Write};
use std::iter::repeat_n;

// Prints what a description gives, as `describe` prints it.
fn try_text(rt: &HostRuntime, number: usize, description: &[u8]) -> anyhow::Result<()> {
    println!(rt; "case {number}")?;
    let (Ok(text) | Err(text)) = describe_text(rt.alloc(), description)?;
    rt.stdout().write_all(&text)?;
    Ok(())
}

// A good description with so many spaces more between two of its words.
fn padded(heap: Global, spaces: usize) -> Result<Vec<u8>, AllocError> {
    let mut text = Vec::new(heap);
    text.extend_from_slice(b"taps 2 1 ")?;
    text.extend(repeat_n(b' ', spaces))?;
    text.extend_from_slice(b"1\nmeasure square\nstart 0\nend any\n")?;
    Ok(text)
}

fn main(rt: HostRuntime) -> anyhow::Result<()> {
    let mut input = Vec::new(rt.alloc());
    rt.stdin().read_to_end(&mut input)?;
    let ended = input.split_inclusive(|byte| *byte == 1);
    for (number, text) in ended.filter_map(|text| text.strip_suffix(&[1])).enumerate() {
        try_text(&rt, number, text)?;
    }
    // the longest description that a block carries, and one byte more
    try_text(&rt, 1000, &padded(rt.alloc(), 65535 - 42)?)?;
    try_text(&rt, 1001, &padded(rt.alloc(), 65536 - 42)?)
}
