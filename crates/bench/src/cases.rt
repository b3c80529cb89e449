//! The cases: each makes one kind of call many times, and sums up what it was told.

use crate::numbers::Numbers;
use bidi::item::Item;
use paragraph::fault::ParagraphFault;
use paragraph::outcome::Outcome;
use paragraph::paragraph::Paragraph;
use rules::Direction;

const SEED: u64 = 20261118;

/// Makes a call so many times, each told how many came before it, and adds up what was told.
fn sum_of<F: FnMut(usize) -> usize>(calls: usize, mut call: F) -> usize
    requires { F.IsAlwaysCallable call }
{
    let mut sum = 0usize;
    for i in 0..calls {
        sum = sum.wrapping_add(call(i));
    }
    sum
}

/// The places of the span of a change, added up.
fn places(outcome: Outcome) -> usize {
    outcome
        .span
        .map_or(0, |span| span.first.wrapping_add(span.end))
}

/// The same of an edit, which may be refused.
fn told(answer: Result<Outcome, ParagraphFault>) -> usize {
    answer.map_or(0, places)
}

/// Puts one item of the text in the place of so many.
fn put_one(
    paragraph: &mut Paragraph<'_, '_>,
    place: usize,
    removed: usize,
    item: Option<&Item>,
) -> usize {
    item.map_or(0, |item| told(paragraph.edit(place, removed, &[*item])))
}

/// Replaces one item by one of the text, at many places.
pub(crate) fn replace_each(
    paragraph: &mut Paragraph<'_, '_>,
    text: &[Item],
    calls: usize,
) -> usize {
    let mut numbers = Numbers { state: SEED };
    sum_of(calls, |_| {
        let place = numbers.below(text.len());
        let from = numbers.below(text.len());
        put_one(paragraph, place, 1, text.get(from))
    })
}

/// Removes one item of a paragraph of so many, many times.
pub(crate) fn remove_each(paragraph: &mut Paragraph<'_, '_>, count: usize, calls: usize) -> usize {
    let mut numbers = Numbers { state: SEED };
    sum_of(calls, |i| {
        let place = numbers.below(count.saturating_sub(i));
        told(paragraph.edit(place, 1, &[]))
    })
}

/// Inserts one item of the text, at many places.
pub(crate) fn insert_each(paragraph: &mut Paragraph<'_, '_>, text: &[Item], calls: usize) -> usize {
    let mut numbers = Numbers { state: SEED };
    sum_of(calls, |i| {
        let place = numbers.below(text.len().saturating_sub(calls.saturating_sub(i)));
        let from = numbers.below(text.len());
        put_one(paragraph, place, 0, text.get(from))
    })
}

/// Turns the base level to and fro.
pub(crate) fn turn_each(paragraph: &mut Paragraph<'_, '_>, calls: usize) -> usize {
    sum_of(calls, |i| {
        let direction = if i % 2 == 0 {
            Direction::Right
        } else {
            Direction::Left
        };
        places(paragraph.turn(direction))
    })
}

/// Replaces all items by the text, in one edit each time.
pub(crate) fn open_each(paragraph: &mut Paragraph<'_, '_>, text: &[Item], calls: usize) -> usize {
    sum_of(calls, |_| told(paragraph.edit(0, text.len(), text)))
}

/// Asks for the order of the whole paragraph, many times.
pub(crate) fn order_each(
    paragraph: &Paragraph<'_, '_>,
    list: &mut [usize],
    scratch: &mut [u8],
    calls: usize,
) -> usize {
    sum_of(calls, |_| {
        let _ = paragraph.order(list, scratch);
        list.first().copied().unwrap_or(0)
    })
}

/// Asks for the level of one item, at many places.
pub(crate) fn ask_levels(paragraph: &Paragraph<'_, '_>, count: usize, calls: usize) -> usize {
    let mut numbers = Numbers { state: SEED };
    sum_of(calls, |_| {
        let level = paragraph.level(numbers.below(count));
        level.map_or(0, |told| usize::from(told.0))
    })
}

/// Asks for the column of one item, at many places.
pub(crate) fn ask_columns(paragraph: &Paragraph<'_, '_>, count: usize, calls: usize) -> usize {
    let mut numbers = Numbers { state: SEED };
    sum_of(calls, |_| {
        let column = paragraph.column(numbers.below(count));
        column.map_or(0, |told| told.0 as usize)
    })
}
