//! The levels of a paragraph, and how far those around a place pass a test.

ghost use Rattle.std.specs.Prelude.{◌≡◌, ℕ, suc, ◌<◌, ◌≤◌, true, false, length, slice_index};
ghost use Rattle.paragraph.specs.Paragraphs.{items_of, base_in, levels_in};
ghost use Rattle.paragraph.specs.Runs.{StretchOf};

use crate::paragraph::Paragraph;
use crate::span::Span;
use rules::Side;
use rules::contexts::level;

/// A paragraph beside its base direction, which its levels are read under.
#[derive(Clone, Copy)]
pub(crate) struct Levels<'p, 't, 'a> {
    pub(crate) paragraph: &'p Paragraph<'t, 'a>,
    base: Side,
    ghost based: { base ≡ base_in paragraph.now },
}

impl<'t, 'a> Paragraph<'t, 'a> {
    /// Its levels, for which its base direction is looked up once.
    pub(crate) fn levels<'p>(&'p self) -> Levels<'p, 't, 'a>
        ensures { result.paragraph.now ≡ self.now }
    {
        Levels {
            paragraph: self,
            base: self.base(),
        }
    }
}

impl Levels<'_, '_, '_> {
    /// The level of an item that is there.
    pub(crate) fn at(&self, place: usize) -> u8
        requires { place < length (items_of self.now.paragraph.now) }
        ensures { result ≡ slice_index (levels_in self.now.paragraph.now) place }
    {
        let at = self.paragraph.surroundings(self.base, place);
        level(self.base, at.left, at.class, at.right)
    }

    // Kept: beside `stretch_end`, its mirror image: as one it would take a range, turned round or not, and tell a place or the one behind it.
    /// The first place of the longest stretch up to a place whose levels all pass a test.
    fn stretch_start<F: Fn(u8) -> bool>(&self, place: usize, passes: &F) -> usize
        requires callable { F.IsAlwaysCallable passes.now }
        requires inside { place ≤ length (items_of self.now.paragraph.now) }
        ensures within { result ≤ place }
        ensures passed { (i : ℕ) → result ≤ i → i < place → F.post passes.now (slice_index (levels_in self.now.paragraph.now) i) true }
        ensures left { (i : ℕ) → suc i ≡ result → F.post passes.now (slice_index (levels_in self.now.paragraph.now) i) false }
    {
        for i in (0..place).rev() {
            if !passes(self.at(i)) {
                return i + 1;
            }
        }
        0
    }

    /// The end of the longest stretch from a place on whose levels all pass a test.
    fn stretch_end<F: Fn(u8) -> bool>(&self, place: usize, passes: &F) -> usize
        requires callable { F.IsAlwaysCallable passes.now }
        requires inside { place ≤ length (items_of self.now.paragraph.now) }
        ensures from { place ≤ result }
        ensures within { result ≤ length (items_of self.now.paragraph.now) }
        ensures passed { (i : ℕ) → place ≤ i → i < result → F.post passes.now (slice_index (levels_in self.now.paragraph.now) i) true }
        ensures right { result < length (items_of self.now.paragraph.now) → F.post passes.now (slice_index (levels_in self.now.paragraph.now) result) false }
    {
        let count = self.paragraph.count();
        for i in place..count {
            if !passes(self.at(i)) {
                return i;
            }
        }
        count
    }

    /// The longest stretch around a place whose levels all pass a test. It is empty only where the place's own level fails.
    pub(crate) fn stretch<F: Fn(u8) -> bool>(&self, place: usize, passes: F) -> Span
        requires callable { F.IsAlwaysCallable passes }
        requires inside { place ≤ length (items_of self.now.paragraph.now) }
        ensures { StretchOf (levels_in self.now.paragraph.now) (F.post passes) place result }
    {
        Span {
            first: self.stretch_start(place, &passes),
            end: self.stretch_end(place, &passes),
        }
    }
}
