//! Carries out a list of page calls from standard input, and prints the answers.

#![tactic(auto)]

mod answer;
mod call;
mod cut;
mod number;
mod parse;
mod report;
mod session;
mod step;

use session::{LIMIT, respond};
use std::io::Read;

fn main(rt: HostRuntime) -> anyhow::Result<()> {
    let mut input = Vec::new(rt.alloc());
    let mut bytes = rt.stdin().take(LIMIT as u64 + 1);
    let _ = bytes.read_to_end(&mut input)?;
    let printed = respond(rt.alloc(), input.as_slice())?;
    rt.print(printed.as_str())?;
    Ok(())
}
