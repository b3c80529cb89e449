//! Where the base direction changes, every item may change: the first that does is looked for from the front, the last from the back.

ghost use Rattle.std.specs.Prelude.{◌≡◌, ◌+◌, ◌-◌, ◌<◌, ◌≤◌, length, take, drop, Decides};
ghost use Rattle.rules.specs.Contexts.{start as left_start, end as right_end};
ghost use Rattle.bidi.specs.Items.{classes};
ghost use Rattle.paragraph.specs.Edges.{IsChanged};
ghost use Rattle.paragraph.specs.Paragraphs.{items_of};
ghost use Rattle.paragraph.specs.Spans.{FirstOf, LastOf, SpanOf};
ghost use Rattle.paragraph.specs.Steps.{level_in};

use crate::change::Change;
use crate::span::{Edges, Span};
use rules::contexts::level;

impl Change<'_, '_, '_> {
    // Kept: with `level_behind` as one, `level_in(edges.base, left, first, right, end, i)` would take six values, four of which differ by the side at each call.
    /// The level of an item before the new ones, as the left edge saw it.
    fn level_before(&self, edges: Edges, i: usize) -> u8
        requires { i < self.now.place }
        ensures { result ≡ level_in edges.base (left_start edges.base) edges.right (take self.now.place (classes (items_of self.now.paragraph.now))) i }
    {
        let paragraph = self.paragraph;
        let left = paragraph.left_at(edges.base, i);
        let right = paragraph.right_before(edges.right, i + 1, self.place);
        level(edges.base, left, paragraph.class_at(i), right)
    }

    /// The level of an item behind the new ones, as the right edge saw it.
    fn level_behind(&self, edges: Edges, i: usize) -> u8
        requires order { self.now.place + self.now.count ≤ i }
        requires within { i < length (items_of self.now.paragraph.now) }
        ensures { result ≡ level_in edges.base edges.left (right_end edges.base) (drop (self.now.place + self.now.count) (classes (items_of self.now.paragraph.now))) (i - (self.now.place + self.now.count)) }
    {
        let paragraph = self.paragraph;
        let left = paragraph.left_after(edges.left, self.place + self.count, i);
        let right = paragraph.right_at(edges.base, i + 1);
        level(edges.base, left, paragraph.class_at(i), right)
    }

    /// Whether a place has a new item or another level.
    fn changed_at(&self, i: usize) -> bool
        requires { i < length (items_of self.now.paragraph.now) }
        ensures { Decides result (IsChanged self.now i) }
    {
        if i < self.place {
            return self.level_before(self.was, i) != self.level_before(self.is, i);
        }
        if i < self.place + self.count {
            return true;
        }
        self.level_behind(self.was, i) != self.level_behind(self.is, i)
    }

    // Kept: beside `last_changed`, its mirror image.
    /// The first place that changed, from the front.
    fn first_changed(&self) -> Option<usize>
        ensures { FirstOf (IsChanged self.now) result }
    {
        (0..self.paragraph.count()).find(|i| self.changed_at(*i))
    }

    /// The last place that changed, from the back.
    fn last_changed(&self) -> Option<usize>
        ensures { LastOf (IsChanged self.now) result }
    {
        // Kept: tried as `(0..self.paragraph.count()).rfind(|i| self.changed_at(*i))`; that no later place changed stayed open.
        for i in (0..self.paragraph.count()).rev() {
            if self.changed_at(i) {
                return Some(i);
            }
        }
        None
    }

    /// The span of the change, from the items after it and what its edges saw before it and see now.
    pub(crate) fn span_by_scan(&self) -> Option<Span>
        ensures { SpanOf (IsChanged self.now) result }
    {
        let first = self.first_changed()?;
        let last = self.last_changed()?;
        Some(Span {
            first,
            end: last + 1,
        })
    }
}
