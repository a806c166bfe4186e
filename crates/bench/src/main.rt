// Runs frames of a workload through a record, and prints a checksum of all that it answers.
//
//   bench WORKLOAD FRAMES [PART [SAMPLES]]
//   bench size
#![tactic(auto)]

mod checksum;
mod frames;
mod noise;
mod plan;
mod random;
mod request;
mod signal;
mod workloads;

use crate::plan::{Plan, Workload};
use crate::request::{Request, read_request};
use crate::workloads::run_workload;
use anyhow::bail;
use measures::bits::Bits;
use records::listening::Listening;
use records::settled::Settled;
use std::env;
use trellises::code::Code;

// Prints how many bytes a record of the code takes.
fn show_size(rt: &HostRuntime) -> anyhow::Result<()> {
    let listening = size_of::<Listening<Code, Bits>>();
    let settled = size_of::<Settled<Code, Bits>>();
    println!(rt; "listening {listening} settled {settled}")?;
    Ok(())
}

fn show_checksum(rt: &HostRuntime, workload: Workload, plan: Plan) -> anyhow::Result<()> {
    match run_workload(workload, plan) {
        Ok(sum) => {
            println!(rt; "checksum {sum}")?;
            Ok(())
        }
        Err(refusal) => {
            println!(rt; "{refusal}")?;
            bail!("the record refused a call")
        }
    }
}

fn main(rt: HostRuntime) -> anyhow::Result<()> {
    match read_request(env::args(&rt)?)? {
        Request::Size => show_size(&rt),
        Request::Run(workload, plan) => show_checksum(&rt, workload, plan),
    }
}
