//! Times the calls of a paragraph. Without arguments it prints a fixed line; `bench CASES < TEXT` reads a direction and items, as the program `levels` does, and prints a line for each case.

#![tactic(auto)]

mod cases;
mod numbers;

use anyhow::anyhow;
use bidi::columns::Columns;
use bidi::contexts::Contexts;
use bidi::item::Item;
use cases::{
    ask_columns, ask_levels, insert_each, open_each, order_each, remove_each, replace_each,
    turn_each,
};
use listing::parse::parse;
use paragraph::paragraph::{Paragraph, Total};
use rules::{Class, Direction};
use std::env;
use std::io::Read;
use std::time::Instant;
use tree::pair::Pair;
use tree::row::Row;
use tree::tree::Tree;

/// How many corrections are timed in one go.
const CORRECTIONS: usize = 512;

/// The same of whole paragraphs.
const WHOLES: usize = 16;

/// Fills the rows of a new tree.
const BLANK: Item = Item {
    class: Class::L,
    width: 1,
};

/// Runs a case, and prints how long it took and what it was told.
fn time<F: FnOnce() -> usize>(
    rt: &HostRuntime,
    case: &str,
    items: usize,
    calls: usize,
    run: F,
) -> anyhow::Result<()>
    requires { F.IsAlwaysCallable run }
{
    let start = Instant::now(rt)?;
    let sum = run();
    let nanos = start.elapsed(rt)?.as_nanos();
    println!(rt; "{case}\t{items}\t{calls}\t{nanos}\t{sum}")?;
    Ok(())
}

/// Times corrections to a paragraph of these items.
fn time_corrections(
    rt: &HostRuntime,
    paragraph: &mut Paragraph<'_, '_>,
    text: &[Item],
) -> anyhow::Result<()> {
    let count = text.len();
    let some = count / 4;
    time(rt, "replace", count, CORRECTIONS, || {
        replace_each(paragraph, text, CORRECTIONS)
    })?;
    time(rt, "remove", count, some, || {
        remove_each(paragraph, count, some)
    })?;
    time(rt, "insert", count, some, || {
        insert_each(paragraph, text, some)
    })?;
    time(rt, "turn", count, WHOLES, || turn_each(paragraph, WHOLES))
}

/// Times questions to a paragraph of these items, and opening it.
fn time_questions(
    rt: &HostRuntime,
    paragraph: &mut Paragraph<'_, '_>,
    text: &[Item],
) -> anyhow::Result<()> {
    let count = text.len();
    let mut list = [0usize; 4096];
    let mut scratch = [0u8; 4096];
    time(rt, "order", count, WHOLES, || {
        order_each(paragraph, &mut list, &mut scratch, WHOLES)
    })?;
    time(rt, "level", count, CORRECTIONS, || {
        ask_levels(paragraph, count, CORRECTIONS)
    })?;
    time(rt, "column", count, CORRECTIONS, || {
        ask_columns(paragraph, count, CORRECTIONS)
    })?;
    time(rt, "open", count, WHOLES, || {
        open_each(paragraph, text, WHOLES)
    })
}

/// Times all calls of a paragraph of these items.
fn time_all(rt: &HostRuntime, direction: Direction, text: &[Item]) -> anyhow::Result<()> {
    let mut rows: [Row<Item, Total>; 4096] = [Row::new(BLANK); 4096];
    let mut tree = Tree::open(&mut rows);
    let mut paragraph = Paragraph::open(&mut tree, direction);
    let _ = paragraph.edit(0, 0, text);
    time_corrections(rt, &mut paragraph, text)?;
    // the questions are asked of a paragraph opened anew, whatever the corrections left in this one
    let mut paragraph = Paragraph::open(&mut tree, direction);
    let _ = paragraph.edit(0, 0, text);
    time_questions(rt, &mut paragraph, text)
}

fn main(rt: HostRuntime) -> anyhow::Result<()> {
    if env::args(&rt)?.count() < 2 {
        println!(rt; "bench: give a case, and a text on standard input")?;
        return Ok(());
    }
    let mut input = Vec::new(rt.alloc());
    let _ = rt.stdin().read_to_end(&mut input)?;
    let Ok(text) = parse(rt.alloc(), input.as_slice()) else {
        return Err(anyhow!("bench: the text is no direction and items"));
    };
    time_all(&rt, text.direction, text.items.as_slice())
}
