//! A paragraph read from a line.

ghost use Rattle.listing.specs.Lines.{Refused, class_of as class_read, direction_of as direction_read, item_read, items_read, line_read, reading};
ghost use Rattle.std.specs.Prelude.{◌≡◌, map, Some, None, Ok, MatchResult};

use crate::refusal::Refusal;
use bidi::item::Item;
use rules::{Class, Direction};
use std::alloc::Global;

/// A direction and items.
#[derive(Drop)]
pub struct Paragraph {
    pub direction: Direction,
    pub items: Vec<Item>,
}

// Kept: `impl TryFrom<u8> for Direction` may stand only in `rules`, which knows no letters of a text; so for the class.
/// The direction of a letter.
fn direction_of(letter: u8) -> Option<Direction>
    ensures { result ≡ direction_read letter }
{
    match letter {
        b'L' => Some(Direction::Left),
        b'R' => Some(Direction::Right),
        b'F' => Some(Direction::FirstStrong),
        _ => None,
    }
}

/// The class of a letter.
fn class_of(letter: u8) -> Option<Class>
    ensures { result ≡ class_read letter }
{
    match letter {
        b'L' => Some(Class::L),
        b'R' => Some(Class::R),
        b'A' => Some(Class::AL),
        b'E' => Some(Class::EN),
        b'S' => Some(Class::ES),
        b'T' => Some(Class::ET),
        b'N' => Some(Class::AN),
        b'C' => Some(Class::CS),
        b'M' => Some(Class::NSM),
        b'G' => Some(Class::S),
        b'W' => Some(Class::WS),
        b'O' => Some(Class::ON),
        _ => None,
    }
}

/// The item of a class letter and a digit.
fn item_of(letter: u8, digit: u8) -> Option<Item>
    ensures { elim result [ None ↦ item_read letter digit ≡ None | Some i ↦ item_read letter digit ≡ Some (reading i) ] }
{
    if !digit.is_ascii_digit() {
        return None;
    }
    let class = class_of(letter)?;
    Some(Item {
        class,
        width: digit - b'0',
    })
}

/// The items of a field.
fn items_in(heap: Global, bytes: &[u8]) -> Result<Vec<Item>, Refusal>
    ensures { MatchResult result (λ v. items_read 0 bytes.now ≡ Ok (map reading v.items)) (λ e. Refused (items_read 0 bytes.now) e) }
{
    let mut items: Vec<Item> = Vec::new(heap);
    for pair in bytes.chunks(2) {
        let [letter, digit] = pair else {
            return Err(Refusal::Item(items.len()));
        };
        let item = item_of(*letter, *digit).ok_or(Refusal::Item(items.len()))?;
        items.push(item)?;
    }
    Ok(items)
}

/// The paragraph of a line: a direction's letter, a tab, and items.
pub fn parse(heap: Global, line: &[u8]) -> Result<Paragraph, Refusal>
    ensures { MatchResult result (λ p. line_read line.now ≡ Ok (p.direction, map reading p.items.items)) (λ e. Refused (line_read line.now) e) }
{
    let [letter, b'\t', field @ ..] = line else {
        return Err(Refusal::Fields);
    };
    let direction = direction_of(*letter).ok_or(Refusal::Direction)?;
    let items = items_in(heap, field)?;
    Ok(Paragraph { direction, items })
}
