//! The item at a place, its level, and the depth of its row.

ghost use Rattle.std.specs.Prelude.{◌≡◌, ◌<◌, ◌≤◌, length, IfOk};
ghost use Rattle.tree.specs.Trees.{depth_in, least};
ghost use Rattle.paragraph.specs.Asking.{ReadAnswer, level_answer};
ghost use Rattle.paragraph.specs.Faults.{numbered};
ghost use Rattle.paragraph.specs.Paragraphs.{items_of, levels_in};

use crate::fault::ParagraphFault;
use crate::paragraph::Paragraph;
use bidi::item::Item;

impl Paragraph<'_, '_> {
    /// The item at a place, and the depth of its row.
    pub(crate) fn read(&self, place: usize) -> Result<(Item, u16), ParagraphFault>
        ensures answer { ReadAnswer (items_of self.now) (depth_in self.now.tree.now place) place result }
        ensures deep { IfOk result (λ told. least told.1 ≤ length (items_of self.now)) }
    {
        self.tree.read(place).map_err(|_| ParagraphFault::Place)
    }

    /// The level of the item at a place, and the depth of its row.
    pub fn level(&self, place: usize) -> Result<(u8, u16), ParagraphFault>
        ensures answer { numbered result ≡ level_answer (levels_in self.now) (depth_in self.now.tree.now place) place }
        ensures deep { IfOk result (λ told. least told.1 ≤ length (items_of self.now)) }
    {
        let (_, depth) = self.read(place)?;
        Ok((self.levels().at(place), depth))
    }
}
