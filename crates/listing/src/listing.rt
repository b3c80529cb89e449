//! What the rules make of a paragraph, as a line of text.

ghost use Rattle.std.specs.Prelude.{◌≡◌, ◌≤◌, ◌++◌, length, IfOk, string_bytes, MatchResult, OnOk};
ghost use Rattle.listing.specs.Text.{columns_from, listed, listed_from, refused_text, spaced};
ghost use Rattle.bidi.specs.Resolving.{base_of, levels_of};
ghost use Rattle.rules.specs.Order.{L2};
ghost use Rattle.listing.specs.declared.refusal.Refusal.TheVariants.{Memory};
ghost use Rattle.std.specs.List.{AllByRecursion};

use crate::refusal::Refusal;
use crate::text::add_numbers;
use bidi::column::column;
use bidi::item::Item;
use bidi::order::order;
use bidi::resolve::resolve;
use rules::{Direction, Side};
use std::alloc::{AllocError, Global};
use std::fmt::Write;

/// Adds the column of each item, each behind a space.
fn add_columns(text: &mut String, levels: &[u8], items: &[Item]) -> Result<(), AllocError>
    requires { (length levels.now ≡ length items.now) × (AllByRecursion (λ l. l ≤ 2) levels.now) }
    ensures { OnOk result (string_bytes text.new ≡ string_bytes text.old ++ spaced (columns_from levels.now items.now)) }
{
    // Kept: by place, since a column is asked for by its place.
    for place in 0..items.len() {
        let start = column(levels, items, place).unwrap();
        write!(text, " {start}")?;
    }
    Ok(())
}

/// The base direction and the levels of a paragraph.
fn levels_in(
    heap: Global,
    direction: Direction,
    items: &[Item],
) -> Result<(Side, Vec<u8>), AllocError>
    ensures { IfOk result (λ p. (p.0 ≡ base_of direction items.now) × (p.1.items ≡ levels_of direction items.now)) }
{
    let mut levels: Vec<u8> = vec![in heap; 0; items.len()]?;
    let base = resolve(direction, items, levels.as_mut_slice()).unwrap();
    Ok((base, levels))
}

/// The places of a paragraph with these levels, in visual order.
fn order_in(heap: Global, levels: &[u8]) -> Result<Vec<usize>, AllocError>
    ensures { IfOk result (λ v. v.items ≡ L2 levels.now) }
{
    let mut places: Vec<usize> = vec![in heap; 0; levels.len()]?;
    order(levels, places.as_mut_slice()).unwrap();
    Ok(places)
}

/// Adds the base level, the levels, the visual order and the columns, each behind its name.
fn add_all(
    text: &mut String,
    base: u8,
    levels: &[u8],
    places: &[usize],
    items: &[Item],
) -> Result<(), AllocError>
    requires { (length levels.now ≡ length items.now) × ((AllByRecursion (λ l. l ≤ 2) levels.now) × (places.now ≡ L2 levels.now)) }
    ensures { OnOk result (string_bytes text.new ≡ string_bytes text.old ++ listed_from base levels.now items.now) }
{
    write!(text, "base {base}\tlevels")?;
    add_numbers(text, levels)?;
    write!(text, "\torder")?;
    add_numbers(text, places)?;
    write!(text, "\tcolumns")?;
    add_columns(text, levels, items)
}

/// The base level, the levels, the visual order and the columns of a paragraph, on one line.
pub fn listing(heap: Global, direction: Direction, items: &[Item]) -> Result<String, Refusal>
    ensures { MatchResult result (λ s. string_bytes s ≡ listed direction items.now) (λ e. e ≡ Memory) }
{
    let (base, levels) = levels_in(heap, direction, items)?;
    let places = order_in(heap, levels.as_slice())?;
    let mut text = String::new(heap);
    add_all(
        &mut text,
        base.level(),
        levels.as_slice(),
        places.as_slice(),
        items,
    )?;
    Ok(text)
}

/// The line for a line that is refused.
pub fn refused(heap: Global, line: usize, refusal: Refusal) -> Result<String, AllocError>
    ensures { IfOk result (λ s. string_bytes s ≡ refused_text line refusal) }
{
    format!(in heap; "!\t{line}\t{refusal}")
}
