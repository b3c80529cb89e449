//! The visual order of a whole paragraph.

ghost use Rattle.std.specs.Prelude.{◌≡◌, ◌≤◌, length};
ghost use Rattle.paragraph.specs.Faults.{verdict};
ghost use Rattle.paragraph.specs.Ordering.{order_answer, overwritten, ordered, levelled};
ghost use Rattle.paragraph.specs.Paragraphs.{items_of, levels_in};

use crate::fault::ParagraphFault;
use crate::level::Levels;
use crate::paragraph::Paragraph;
use bidi::order::order;

impl Levels<'_, '_, '_> {
    /// Writes the level of each item.
    fn write_levels(&self, scratch: &mut [u8])
        requires { length (items_of self.now.paragraph.now) ≤ length scratch.old }
        ensures { scratch.new ≡ overwritten (length (levels_in self.now.paragraph.now)) (levels_in self.now.paragraph.now) scratch.old }
    {
        let count = self.paragraph.count();
        let front = &mut scratch[0..count];
        for (place, slot) in front.iter_mut().enumerate() {
            *slot = self.at(place);
        }
    }
}

impl Paragraph<'_, '_> {
    /// Writes all places in visual order into the list, and the levels in paragraph order into the scratch. Entries past the items stay.
    pub fn order(&self, list: &mut [usize], scratch: &mut [u8]) -> Result<(), ParagraphFault>
        ensures answer { verdict result ≡ order_answer (length (levels_in self.now)) (length list.old) (length scratch.old) }
        ensures list { list.new ≡ ordered (levels_in self.now) list.old scratch.old }
        ensures scratch { scratch.new ≡ levelled (levels_in self.now) list.old scratch.old }
    {
        let count = self.count();
        if count > list.len() {
            return Err(ParagraphFault::List);
        }
        if count > scratch.len() {
            return Err(ParagraphFault::Scratch);
        }
        self.levels().write_levels(scratch);
        order(&scratch[..count], list).unwrap();
        Ok(())
    }
}
