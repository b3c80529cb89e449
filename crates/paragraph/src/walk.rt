//! Where the base direction stays, a change reaches as far as the contexts differ: a walk from the change to either side.

ghost use Rattle.std.specs.Prelude.{◌≡◌, ◌+◌, take, drop};
ghost use Rattle.rules.specs.Contexts.{start as left_start, end as right_end};
ghost use Rattle.bidi.specs.Items.{classes};
ghost use Rattle.paragraph.specs.Edges.{IsChanged, Moved, Other};
ghost use Rattle.paragraph.specs.Paragraphs.{items_of};
ghost use Rattle.paragraph.specs.Spans.{SpanOf};

use crate::change::Change;
use crate::span::{Span, hull};
use rules::contexts::level;

impl Change<'_, '_, '_> {
    // Kept: one walk for both sides, `walk((0..self.place).rev(), self.was.right, self.is.right, |right, at| level(base, at.left, at.class, right), Right::before)`, reads no plainer.
    /// The span of the items before the new ones whose level differs between the two right contexts there.
    fn walk_before(&self) -> Option<Span>
        ensures { SpanOf (Other self.now.was.base (left_start self.now.was.base) self.now.was.right self.now.was.base (left_start self.now.was.base) self.now.is.right (take self.now.place (classes (items_of self.now.paragraph.now)))) result }
    {
        let base = self.was.base;
        let mut old = self.was.right;
        let mut new = self.is.right;
        let mut found = None;
        for i in (0..self.place).rev() {
            if old == new {
                break;
            }
            let at = self.paragraph.surroundings(base, i);
            if level(base, at.left, at.class, old) != level(base, at.left, at.class, new) {
                let here = Span::point(i);
                found = hull(Some(here), found);
            }
            old = old.before(at.class);
            new = new.before(at.class);
        }
        found
    }

    /// The span of the items behind the new ones whose level differs between the two left contexts there.
    fn walk_behind(&self) -> Option<Span>
        ensures { SpanOf (Moved (self.now.place + self.now.count) (Other self.now.was.base self.now.was.left (right_end self.now.was.base) self.now.was.base self.now.is.left (right_end self.now.was.base) (drop (self.now.place + self.now.count) (classes (items_of self.now.paragraph.now))))) result }
    {
        let base = self.was.base;
        let mut old = self.was.left;
        let mut new = self.is.left;
        let mut found = None;
        for j in self.place + self.count..self.paragraph.count() {
            if old == new {
                break;
            }
            let at = self.paragraph.surroundings(base, j);
            if level(base, old, at.class, at.right) != level(base, new, at.class, at.right) {
                found = hull(Some(Span::point(j)), found);
            }
            old = old.after(at.class);
            new = new.after(at.class);
        }
        found
    }

    /// The span of the change under one base direction, from the items after it and what its edges saw before it and see now.
    pub(crate) fn span_by_walk(&self) -> Option<Span>
        requires { self.now.was.base ≡ self.now.is.base }
        ensures { SpanOf (IsChanged self.now) result }
    {
        let given = Span::stretch(self.place, self.place + self.count);
        hull(given, hull(self.walk_before(), self.walk_behind()))
    }
}
