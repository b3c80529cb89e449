//! Corrections to a paragraph, each answered with the span of what it changes.

ghost use Rattle.std.specs.Prelude.{◌≡◌, ◌+◌, ◌≤◌, [], length, IfOk};
ghost use Rattle.tree.specs.Plain.{Untouched};
ghost use Rattle.tree.specs.Trees.{capacity_of};
ghost use Rattle.bidi.specs.Items.{classes};
ghost use Rattle.paragraph.specs.Edges.{ChangedBy, edges as edges_of};
ghost use Rattle.paragraph.specs.Faults.{numbered, verdict};
ghost use Rattle.paragraph.specs.Outcomes.{OutcomeOf, OutcomeBy, edit_told, turn_told, widths_answer};
ghost use Rattle.paragraph.specs.Paragraphs.{items_of, room_of, base_in, plain_of};
ghost use Rattle.paragraph.specs.Plain.{first_wide as first_wide_of, edit_answer, after_edit};

use crate::change::Change;
use crate::fault::ParagraphFault;
use crate::outcome::Outcome;
use crate::paragraph::{Paragraph, Total};
use crate::span::Edges;
use bidi::item::Item;
use rules::Direction;
use tree::tree::Tree;

/// The position of the first item wider than two columns.
fn first_wide(items: &[Item]) -> Option<usize>
    ensures { result ≡ first_wide_of items.now }
{
    items.iter().position(|item| item.width > 2)
}

/// Refuses items wider than two columns, by the position of the first.
fn narrow_all(items: &[Item]) -> Result<(), ParagraphFault>
    ensures { verdict result ≡ widths_answer items.now }
{
    match first_wide(items) {
        Some(position) => Err(ParagraphFault::Wide(position)),
        None => Ok(()),
    }
}

impl<'t, 'a> Paragraph<'t, 'a> {
    /// A paragraph without items, in a direction. The tree is emptied.
    pub fn open(tree: &'t mut Tree<'a, Item, Total>, direction: Direction) -> Self
        ensures items { items_of result ≡ [] }
        ensures direction { result.direction ≡ direction }
        ensures room { room_of result ≡ capacity_of tree.old }
    {
        tree.clear();
        Paragraph { tree, direction }
    }

    /// What a change is answered: `place` and `count` tell the new items, `was` what the edges of the change saw before it.
    fn outcome(&self, place: usize, count: usize, was: Edges) -> Outcome
        requires { place + count ≤ length (items_of self.now) }
        ensures { OutcomeBy self.now (ChangedBy was (edges_of (base_in self.now) (classes (items_of self.now)) place (place + count)) (classes (items_of self.now)) place count) result }
    {
        let base = self.base();
        let is = self.edges(base, place, place + count);
        let change = Change {
            paragraph: self,
            place,
            count,
            was,
            is,
        };
        let span = if was.base == base {
            change.span_by_walk()
        } else {
            change.span_by_scan()
        };
        Outcome {
            count: self.count(),
            base: base.level(),
            span,
        }
    }

    /// Sets the direction.
    pub fn turn(&mut self, direction: Direction) -> Outcome
        ensures items { items_of self.new ≡ items_of self.old }
        ensures direction { self.new.direction ≡ direction }
        ensures room { room_of self.new ≡ room_of self.old }
        ensures told { result ≡ turn_told (plain_of self.old) direction }
        ensures outcome { OutcomeOf self.old self.new 0 0 0 result }
    {
        let was = self.edges(self.base(), 0, 0);
        self.direction = direction;
        self.outcome(0, 0, was)
    }

    /// Replaces `removed` items from a place on by new ones. Items that are given are new, even if equal to the removed ones.
    pub fn edit(
        &mut self,
        place: usize,
        removed: usize,
        items: &[Item],
    ) -> Result<Outcome, ParagraphFault>
        ensures told { numbered result ≡ edit_told (room_of self.old) (plain_of self.old) place removed items.now }
        ensures answer { verdict result ≡ edit_answer (room_of self.old) (items_of self.old) place removed items.now }
        ensures items { items_of self.new ≡ after_edit (room_of self.old) (items_of self.old) place removed items.now }
        ensures direction { self.new.direction ≡ self.old.direction }
        ensures room { room_of self.new ≡ room_of self.old }
        ensures refused { Untouched result self.old self.new }
        ensures outcome { IfOk result (OutcomeOf self.old self.new place removed (length items.now)) }
    {
        let count = self.count();
        if place > count {
            return Err(ParagraphFault::Place);
        }
        if removed > count - place {
            return Err(ParagraphFault::Removed);
        }
        narrow_all(items)?;
        let end = place + removed;
        let was = self.edges(self.base(), place, end);
        self.tree.replace(place, end, items)?;
        Ok(self.outcome(place, items.len(), was))
    }
}
