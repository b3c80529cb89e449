//! Any list of changes to an empty paragraph, then any list of questions about it.

ghost use Rattle.std.specs.Prelude.{◌≡◌, [], OnOk};
ghost use Rattle.tree.specs.Plain.{Untouched};
ghost use Rattle.tree.specs.Recordings.{short_of, SameRecording, SpareEntriesStay, ListsUntouched};
ghost use Rattle.paragraph.specs.Paragraphs.{items_of, room_of};
ghost use Rattle.history.specs.Law.{ParagraphHistory};

use crate::change::change_all;
use crate::question::ask_all;
use crate::request::ParagraphRecording;
use bidi::item::Item;
use paragraph::paragraph::Paragraph;
use rules::Direction;
use tree::history::Unrecorded;

/// Removes all items, and sets the direction.
fn empty_out(paragraph: &mut Paragraph<'_, '_>, direction: Direction)
    ensures items { items_of paragraph.new ≡ [] }
    ensures direction { paragraph.new.direction ≡ direction }
    ensures room { room_of paragraph.new ≡ room_of paragraph.old }
{
    let outcome = paragraph.turn(direction);
    paragraph.edit(0, outcome.count, &[]).unwrap();
}

/// Empties the paragraph, carries out the changes, then answers the questions. What each was answered is written to the two lists, whose further entries stay.
pub fn paragraph_history(
    paragraph: &mut Paragraph<'_, '_>,
    direction: Direction,
    recorded: &[Item],
    recording: &mut ParagraphRecording<'_, '_>,
) -> Result<(), Unrecorded>
    ensures answer { result ≡ short_of recording.old }
    ensures same { SameRecording recording.old recording.new }
    ensures law { OnOk result (ParagraphHistory (room_of paragraph.old) direction recorded.now recording.old.changes.now recording.new.outcomes.now recording.old.questions.now recording.new.answers.now paragraph.new) }
    ensures spare { OnOk result (SpareEntriesStay recording.old recording.new) }
    ensures refused { Untouched result paragraph.old paragraph.new × ListsUntouched result recording.old recording.new }
{
    recording.fits()?;
    empty_out(paragraph, direction);
    change_all(paragraph, recorded, recording.changes, recording.outcomes);
    ask_all(paragraph, recording.questions, recording.answers);
    Ok(())
}
