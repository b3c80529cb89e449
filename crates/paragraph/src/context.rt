//! The width of a stretch, and what the items before and behind a place do to a context, from the totals of the tree.

ghost use Rattle.std.specs.Prelude.{◌≡◌, ◌+◌, ◌<◌, ◌≤◌, length, take, drop, slice_index_or};
ghost use Rattle.std.specs.List.{between};
ghost use Rattle.rules.specs.Contexts.{start as left_start, end as right_end};
ghost use Rattle.rules.specs.Stretches.{width_between};
ghost use Rattle.bidi.specs.Items.{classes, widths};
ghost use Rattle.bidi.specs.Sums.{context_ops};
ghost use Rattle.tree.specs.Measures.{total_of};
ghost use Rattle.paragraph.specs.Paragraphs.{items_of, base_in};
ghost use Rattle.paragraph.specs.Steps.{left as left_along, right as right_along, none};
ghost use Rattle.paragraph.specs.Totals.{total_ops};
ghost use Rattle.paragraph.specs.Edges.{edges as edges_of, surroundings as surroundings_of};

use crate::paragraph::{Paragraph, Total};
use crate::span::{Edges, Surroundings};
use bidi::contexts::Contexts;
use rules::{Class, Left, Right, Side};

impl Paragraph<'_, '_> {
    /// How many items are there.
    pub(crate) fn count(&self) -> usize
        ensures { result ≡ length (items_of self.now) }
    {
        self.tree.len()
    }

    // Kept: a stretch's two places apart, here and below; as `self.part(0, place).after(left)` each call would still have to show both facts, where the part is made.
    /// The total of a stretch.
    fn total(&self, first: usize, end: usize) -> Total
        requires ordered { first ≤ end }
        requires within { end ≤ length (items_of self.now) }
        ensures { result ≡ total_of total_ops (between first end (items_of self.now)) }
    {
        self.tree.total(first, end).unwrap()
    }

    /// The width of a stretch.
    pub(crate) fn width_of(&self, first: usize, end: usize) -> u32
        requires ordered { first ≤ end }
        requires within { end ≤ length (items_of self.now) }
        ensures sum { result ≡ width_between (widths (items_of self.now)) first end }
        ensures small { result ≤ 1044480 }
    {
        self.total(first, end).first.width
    }

    /// What the items of a stretch do to contexts.
    fn contexts(&self, first: usize, end: usize) -> Contexts
        requires ordered { first ≤ end }
        requires within { end ≤ length (items_of self.now) }
        ensures { result ≡ total_of context_ops (between first end (items_of self.now)) }
    {
        self.total(first, end).second
    }

    /// The base direction.
    pub(crate) fn base(&self) -> Side
        ensures { result ≡ base_in self.now }
    {
        self.contexts(0, self.count()).base(self.direction)
    }

    // Kept: left and right contexts beside each other, here and below: as one over a trait of both each call would name its side, as its name does now.
    /// The left context that the items of a stretch make of the one before them.
    pub(crate) fn left_after(&self, before: Left, first: usize, end: usize) -> Left
        requires ordered { first ≤ end }
        requires within { end ≤ length (items_of self.now) }
        ensures { result ≡ left_along before (classes (between first end (items_of self.now))) }
    {
        self.contexts(first, end).after(before)
    }

    /// The right context that the items of a stretch make of the one behind them.
    pub(crate) fn right_before(&self, behind: Right, first: usize, end: usize) -> Right
        requires ordered { first ≤ end }
        requires within { end ≤ length (items_of self.now) }
        ensures { result ≡ right_along behind (classes (between first end (items_of self.now))) }
    {
        self.contexts(first, end).before(behind)
    }

    /// The left context of the item at a place.
    pub(crate) fn left_at(&self, base: Side, place: usize) -> Left
        requires { place ≤ length (items_of self.now) }
        ensures { result ≡ left_along (left_start base) (take place (classes (items_of self.now))) }
    {
        self.left_after(Left::start(base), 0, place)
    }

    /// The right context that the items from a place on make.
    pub(crate) fn right_at(&self, base: Side, place: usize) -> Right
        requires { place ≤ length (items_of self.now) }
        ensures { result ≡ right_along (right_end base) (drop place (classes (items_of self.now))) }
    {
        self.right_before(Right::end(base), place, self.count())
    }

    // Kept: that a place is there is asked of each call here and in `level`, as an index asks it.
    /// The class of the item at a place, between its contexts.
    pub(crate) fn surroundings(&self, base: Side, place: usize) -> Surroundings
        requires { place < length (items_of self.now) }
        ensures { result ≡ surroundings_of base (classes (items_of self.now)) place }
    {
        let (before, item, behind) = self.tree.around(place).unwrap();
        Surroundings {
            left: before.second.after(Left::start(base)),
            class: item.class,
            right: behind.second.before(Right::end(base)),
        }
    }

    /// The class of the item at a place.
    pub(crate) fn class_at(&self, place: usize) -> Class
        requires { place < length (items_of self.now) }
        ensures { result ≡ slice_index_or (classes (items_of self.now)) place none }
    {
        let (item, _) = self.read(place).unwrap();
        item.class
    }

    /// What the edges of a stretch of at most one item see, from the item there.
    fn near_edges(&self, base: Side, first: usize, end: usize) -> Edges
        requires ordered { first ≤ end }
        requires near { end ≤ first + 1 }
        requires within { first < length (items_of self.now) }
        ensures { result ≡ edges_of base (classes (items_of self.now)) first end }
    {
        let at = self.surroundings(base, first);
        let left = if first == end {
            at.left
        } else {
            at.left.after(at.class)
        };
        Edges {
            base,
            right: at.right.before(at.class),
            left,
        }
    }

    /// What the edges of a stretch see.
    pub(crate) fn edges(&self, base: Side, first: usize, end: usize) -> Edges
        requires ordered { first ≤ end }
        requires within { end ≤ length (items_of self.now) }
        ensures { result ≡ edges_of base (classes (items_of self.now)) first end }
    {
        if first < self.count() && end - first <= 1 {
            return self.near_edges(base, first, end);
        }
        Edges {
            base,
            right: self.right_at(base, first),
            left: self.left_at(base, end),
        }
    }
}
