//! The column of an item, from its level and the widths around it.

ghost use Rattle.std.specs.Prelude.{◌≡◌, ◌-◌, ◌<◌, ◌≤◌, length, nat_le, slice_index, sum};
ghost use Rattle.std.specs.List.{prefix_len, suffix_len};
ghost use Rattle.bidi.specs.Columning.{column_answer, column_in};
ghost use Rattle.bidi.specs.Items.{widths};
ghost use Rattle.bidi.specs.Sums.{held};
ghost use Rattle.rules.specs.Order.{column_of};
ghost use Rattle.rules.specs.Stretches.{Stretch};

use crate::fault::Fault;
use crate::item::Item;
use std::ops::Range;

/// The widths of items together, held at 4,294,967,295.
fn width_of(items: &[Item]) -> u32
    ensures { result ≡ held (sum (widths items.now)) }
{
    items.iter().fold(
        0,
        |sum: u32, item| sum.saturating_add(u32::from(item.width)),
    )
}

// Kept: beside `high_from`, its mirror image: as one it would take the iterator, turned round or not, from its caller.
/// How many levels before the end are k or above, back to the first that is lower.
fn high_before(levels: &[u8], k: u8) -> usize
    ensures is { result ≡ suffix_len (λ l. nat_le k l) levels.now }
    ensures within { result ≤ length levels.now }
{
    levels.iter().rev().take_while(|level| **level >= k).count()
}

/// How many levels from the start are k or above, up to the first that is lower.
fn high_from(levels: &[u8], k: u8) -> usize
    ensures is { result ≡ prefix_len (λ l. nat_le k l) levels.now }
    ensures within { result ≤ length levels.now }
{
    levels.iter().take_while(|level| **level >= k).count()
}

/// An item at its place in a paragraph, whose items and levels stand beside each other.
#[derive(Clone, Copy)]
struct Spot<'a> {
    levels: &'a [u8],
    items: &'a [Item],
    place: usize,
    ghost even: { length levels.now ≡ length items.now },
    ghost there: { place < length items.now },
}

impl Spot<'_> {
    /// The longest stretch at level k or above around the item.
    fn stretch(&self, k: u8) -> Range<usize>
        requires { k ≤ slice_index self.now.levels.now self.now.place }
        ensures { Stretch self.now.levels.now k self.now.place result.start result.end }
    {
        let (before, rest) = self.levels.split_at(self.place);
        self.place - high_before(before, k)..self.place + high_from(rest, k)
    }

    /// The column of an item at level 1: what stands before its stretch, then what stands behind it in the stretch.
    fn column_at_one(&self) -> u32
        requires { slice_index self.now.levels.now self.now.place ≡ 1 }
        ensures { result ≡ held (column_of self.now.levels.now (widths self.now.items.now) self.now.place) }
    {
        let one = self.stretch(1);
        let behind = &self.items[self.place + 1..one.end];
        width_of(&self.items[..one.start]).saturating_add(width_of(behind))
    }

    /// The column of an item at level 2: what stands before the stretch of level 1, then what stands behind the stretch of level 2 in it,
    /// then what stands before the item in the latter.
    fn column_at_two(&self) -> u32
        requires { slice_index self.now.levels.now self.now.place ≡ 2 }
        ensures { result ≡ held (column_of self.now.levels.now (widths self.now.items.now) self.now.place) }
    {
        let one = self.stretch(1);
        let two = self.stretch(2);
        width_of(&self.items[..one.start])
            .saturating_add(width_of(&self.items[two.end..one.end]))
            .saturating_add(width_of(&self.items[two.start..self.place]))
    }

    /// The column of the item, unless its level is above 2.
    fn column(&self) -> Result<u32, Fault>
        ensures { result ≡ column_in self.now.levels.now (widths self.now.items.now) self.now.place }
    {
        match self.levels[self.place] {
            0 => Ok(width_of(&self.items[..self.place])),
            1 => Ok(self.column_at_one()),
            2 => Ok(self.column_at_two()),
            _ => Err(Fault::Level),
        }
    }
}

// Kept: levels and items as two slices, since callers have them so, from `resolve`, and lend both.
/// The column of the item at a place, held at 4,294,967,295, where `levels` begins with the levels of the items.
pub fn column(levels: &[u8], items: &[Item], place: usize) -> Result<u32, Fault>
    ensures { result ≡ column_answer levels.now items.now place }
{
    let levels = levels.get(..items.len()).ok_or(Fault::Short)?;
    if place >= items.len() {
        return Err(Fault::Place);
    }
    let spot = Spot {
        levels,
        items,
        place,
    };
    spot.column()
}
