//! Worked edits of a paragraph.

use bidi::columns::Columns;
use bidi::contexts::Contexts;
use bidi::item::Item;
use paragraph::fault::ParagraphFault;
use paragraph::outcome::Outcome;
use paragraph::paragraph::{Paragraph, Total};
use rules::{Class, Direction};
use std::process::Abort;
use std::test::Fail;
use tree::pair::Pair;
use tree::row::Row;
use tree::tree::Tree;

fn item(class: Class) -> Item {
    Item { class, width: 1 }
}

/// An edit was accepted, and answered so many items, this base level and this span, if any.
fn told(
    rt: &impl Abort,
    answer: Result<Outcome, ParagraphFault>,
    count: usize,
    base: u8,
    span: Option<(usize, usize)>,
) -> Result<(), Fail> {
    let Ok(outcome) = answer else {
        return Err(Fail::new("the edit is accepted"));
    };
    assert_eq!(rt; outcome.count, count);
    assert_eq!(rt; outcome.base, base);
    assert_eq!(rt; outcome.span.map(|span| (span.first, span.end)), span);
    Ok(())
}

fn level_is(
    rt: &impl Abort,
    paragraph: &Paragraph<'_, '_>,
    place: usize,
    level: u8,
) -> Result<(), Fail> {
    let Ok((told, _)) = paragraph.level(place) else {
        return Err(Fail::new("the item is there"));
    };
    assert_eq!(rt; told, level);
    Ok(())
}

#[test]
fn an_arabic_letter_before_digits(rt: HostRuntime) -> Result<(), Fail> {
    let mut rows: [Row<Item, Total>; 8] = [Row::new(item(Class::L)); 8];
    let mut tree = Tree::open(&mut rows);
    let mut paragraph = Paragraph::open(&mut tree, Direction::Left);
    let digit = item(Class::EN);
    let space = item(Class::WS);
    told(
        &rt,
        paragraph.edit(0, 0, &[digit, space, digit, space, digit]),
        5,
        0,
        Some((0, 5)),
    )?;
    told(
        &rt,
        paragraph.edit(0, 0, &[item(Class::AL)]),
        6,
        0,
        Some((0, 6)),
    )?;
    level_is(&rt, &paragraph, 0, 1)?;
    level_is(&rt, &paragraph, 1, 2)?;
    level_is(&rt, &paragraph, 2, 1)?;
    level_is(&rt, &paragraph, 3, 2)?;
    level_is(&rt, &paragraph, 4, 1)?;
    level_is(&rt, &paragraph, 5, 2)
}

#[test]
fn a_new_base_level_reaches_the_last_item(rt: HostRuntime) -> Result<(), Fail> {
    let mut rows: [Row<Item, Total>; 8] = [Row::new(item(Class::L)); 8];
    let mut tree = Tree::open(&mut rows);
    let mut paragraph = Paragraph::open(&mut tree, Direction::FirstStrong);
    told(
        &rt,
        paragraph.edit(0, 0, &[item(Class::R), item(Class::L)]),
        2,
        1,
        Some((0, 2)),
    )?;
    told(
        &rt,
        paragraph.edit(0, 0, &[item(Class::L)]),
        3,
        0,
        Some((0, 3)),
    )?;
    level_is(&rt, &paragraph, 0, 0)?;
    level_is(&rt, &paragraph, 1, 1)?;
    level_is(&rt, &paragraph, 2, 0)
}

#[test]
fn a_removed_item_may_change_nothing(rt: HostRuntime) -> Result<(), Fail> {
    let mut rows: [Row<Item, Total>; 4] = [Row::new(item(Class::L)); 4];
    let mut tree = Tree::open(&mut rows);
    let mut paragraph = Paragraph::open(&mut tree, Direction::Left);
    told(
        &rt,
        paragraph.edit(0, 0, &[item(Class::L), item(Class::L)]),
        2,
        0,
        Some((0, 2)),
    )?;
    told(&rt, paragraph.edit(1, 1, &[]), 1, 0, None)
}
