//! Reads lines of a direction and items, and prints the base level, the levels, the visual order and the columns of each.

#![tactic(auto)]

use listing::listing::{listing, refused};
use listing::parse::parse;
use std::alloc::{AllocError, Global};
use std::io::Read;

// What the rules make of a line, or why there is nothing to be made of it.
fn answer(heap: Global, number: usize, line: &str) -> Result<String, AllocError> {
    parse(heap, line.as_bytes())
        .and_then(|paragraph| listing(heap, paragraph.direction, paragraph.items.as_slice()))
        .or_else(|refusal| refused(heap, number, refusal))
}

fn main(rt: HostRuntime) -> anyhow::Result<()> {
    let mut input = String::new(rt.alloc());
    rt.stdin().read_to_string(&mut input)?;
    for (i, line) in input.lines().enumerate() {
        let text = answer(rt.alloc(), i.saturating_add(1), line)?;
        println!(rt; "{text}")?;
    }
    Ok(())
}
