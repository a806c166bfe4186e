// The words of the command line.
use crate::plan::{Part, Plan, Workload};
use anyhow::Context;
use std::env::Args;
use std::str::FromStr;
use survivors::layout::MOST_SAMPLES;

#[derive(Clone, Copy, Debug, PartialEq, Eq)]
pub(crate) enum Request {
    Size,
    Run(Workload, Plan),
}

// What a word says, or something else where there is no word.
fn parse_or<T: FromStr + Drop>(word: Option<String>, other: T) -> Result<T, T::Err> {
    let said = word.map(|word| word.as_str().parse::<T>()).transpose()?;
    Ok(said.unwrap_or(other))
}

// The whole of as many samples as a record holds, where no part and no number of samples are given.
fn read_plan(mut words: Args) -> anyhow::Result<Plan> {
    let frames = words.next().context("no number of frames")?;
    Ok(Plan {
        frames: frames.as_str().parse::<u64>()?,
        part: parse_or(words.next(), Part::Whole)?,
        samples: parse_or(words.next(), MOST_SAMPLES)?,
    })
}

// What is asked for, from the words after the program's name.
pub(crate) fn read_request(mut words: Args) -> anyhow::Result<Request> {
    let name = words.nth(1).context("no workload")?;
    if name.as_str() == "size" {
        return Ok(Request::Size);
    }
    let workload = name.as_str().parse::<Workload>()?;
    Ok(Request::Run(workload, read_plan(words)?))
}
