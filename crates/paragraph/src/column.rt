//! The column of an item: its level says which stretches around it stand before it on the screen.

ghost use Rattle.std.specs.Prelude.{◌≡◌, ◌<◌, ◌≤◌, length, slice_index};
ghost use Rattle.rules.specs.Order.{column_of};
ghost use Rattle.rules.specs.Stretches.{Stretch};
ghost use Rattle.bidi.specs.Items.{widths};
ghost use Rattle.paragraph.specs.Asking.{column_answer};
ghost use Rattle.paragraph.specs.Faults.{numbered};
ghost use Rattle.paragraph.specs.Paragraphs.{items_of, levels_in};

use crate::fault::ParagraphFault;
use crate::level::Levels;
use crate::paragraph::Paragraph;
use crate::span::Span;

/// An item at its place, among the levels of its paragraph.
#[derive(Clone, Copy)]
struct Spot<'p, 't, 'a> {
    levels: Levels<'p, 't, 'a>,
    place: usize,
    ghost there: { place < length (items_of levels.paragraph.now) },
}

impl Spot<'_, '_, '_> {
    /// The longest stretch at a level or above around the item, which is at it or above.
    fn stretch(&self, high: u8) -> Span
        requires { high ≤ slice_index (levels_in self.now.levels.paragraph.now) self.now.place }
        ensures within { result.end ≤ length (items_of self.now.levels.paragraph.now) }
        ensures stretch { Stretch (levels_in self.now.levels.paragraph.now) high self.now.place result.first result.end }
    {
        self.levels.stretch(self.place, |level| level >= high)
    }

    // Kept: beside bidi's over slices, here and at level 2: one function over both would take a trait with stretches and widths, longer than the sums that it saves.
    /// The column of an item at level 1: what stands before its stretch, then what stands behind it in the stretch.
    fn column_at_one(&self) -> u32
        requires { slice_index (levels_in self.now.levels.paragraph.now) self.now.place ≡ 1 }
        ensures { result ≡ column_of (levels_in self.now.levels.paragraph.now) (widths (items_of self.now.levels.paragraph.now)) self.now.place }
    {
        let paragraph = self.levels.paragraph;
        let outer = self.stretch(1);
        paragraph.width_of(0, outer.first) + paragraph.width_of(self.place + 1, outer.end)
    }

    /// The column of an item at level 2: what stands before the stretch of level 1, then what stands behind the stretch of level 2 in it,
    /// then what stands before the item in the latter.
    fn column_at_two(&self) -> u32
        requires { slice_index (levels_in self.now.levels.paragraph.now) self.now.place ≡ 2 }
        ensures { result ≡ column_of (levels_in self.now.levels.paragraph.now) (widths (items_of self.now.levels.paragraph.now)) self.now.place }
    {
        let paragraph = self.levels.paragraph;
        let outer = self.stretch(1);
        let inner = self.stretch(2);
        paragraph.width_of(0, outer.first)
            + paragraph.width_of(inner.end, outer.end)
            + paragraph.width_of(inner.first, self.place)
    }
}

impl Paragraph<'_, '_> {
    /// The column of the item at a place, and its width.
    pub fn column(&self, place: usize) -> Result<(u32, u8), ParagraphFault>
        ensures { numbered result ≡ column_answer (levels_in self.now) (widths (items_of self.now)) place }
    {
        let (item, _) = self.read(place)?;
        let spot = Spot {
            levels: self.levels(),
            place,
        };
        let column = match spot.levels.at(place) {
            0 => self.width_of(0, place),
            1 => spot.column_at_one(),
            _ => spot.column_at_two(),
        };
        Ok((column, item.width))
    }
}
