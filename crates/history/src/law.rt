//! The law over whole histories, on one call.

ghost use Rattle.std.specs.Prelude.{◌≡◌, OnOk};
ghost use Rattle.tree.specs.Plain.{Untouched};
ghost use Rattle.tree.specs.Recordings.{SameRecording, SpareEntriesStay, ListsUntouched};
ghost use Rattle.tree.specs.Trees.{capacity_of};
ghost use Rattle.paragraph.specs.Paragraphs.{room_of};
ghost use Rattle.history.specs.Law.{Law, shortest};

use crate::history::paragraph_history;
use crate::request::ParagraphRecording;
use bidi::item::Item;
use paragraph::paragraph::Paragraph;
use rules::Direction;
use tree::history::{TreeRecording, Unrecorded};
use tree::measure::Measure;
use tree::tree::Tree;

/// Runs a history of a tree and a history of a paragraph, each from empty. What each call was answered is written to the four lists, whose further entries stay.
pub fn history<E: Copy, T: Measure<E>>(
    tree: &mut Tree<'_, E, T>,
    tree_calls: &mut TreeRecording<'_, '_, E, T>,
    paragraph: &mut Paragraph<'_, '_>,
    direction: Direction,
    recorded: &[Item],
    calls: &mut ParagraphRecording<'_, '_>,
) -> Result<(), Unrecorded>
    ensures answer { result ≡ shortest tree_calls.old calls.old }
    ensures same { SameRecording tree_calls.old tree_calls.new × SameRecording calls.old calls.new }
    ensures law { OnOk result (Law T.ops (capacity_of tree.old) tree_calls.old.changes.now tree_calls.new.outcomes.now tree_calls.old.questions.now tree_calls.new.answers.now tree.new (room_of paragraph.old) direction recorded.now calls.old.changes.now calls.new.outcomes.now calls.old.questions.now calls.new.answers.now paragraph.new) }
    ensures spare { OnOk result (SpareEntriesStay tree_calls.old tree_calls.new × SpareEntriesStay calls.old calls.new) }
    ensures refused { Untouched result tree.old tree.new × Untouched result paragraph.old paragraph.new }
    ensures lists { ListsUntouched result tree_calls.old tree_calls.new × ListsUntouched result calls.old calls.new }
{
    calls.fits()?;
    tree.history(tree_calls)?;
    paragraph_history(paragraph, direction, recorded, calls)
}
