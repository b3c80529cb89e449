//! One recorded change, and a list of them.

ghost use Rattle.std.specs.Prelude.{◌≡◌, ◌≤◌, length, take, drop};
ghost use Rattle.std.specs.List.{between};
ghost use Rattle.paragraph.specs.Paragraphs.{room_of, plain_of};
ghost use Rattle.history.specs.Plain.{after_change, after_all, Answer, Answered};

use crate::request::Change;
use bidi::item::Item;
use paragraph::fault::ParagraphFault;
use paragraph::outcome::Outcome;
use paragraph::paragraph::Paragraph;

/// The recorded items from `first` up to and without `end`, as far as there are such.
fn picked(recorded: &[Item], first: usize, end: usize) -> &[Item]
    ensures { result.now ≡ between first end recorded.now }
{
    let end = end.min(recorded.len());
    let first = first.min(end);
    &recorded[first..end]
}

/// Carries out a recorded change.
fn carry_out(
    paragraph: &mut Paragraph<'_, '_>,
    recorded: &[Item],
    change: Change,
) -> Result<Outcome, ParagraphFault>
    ensures answer { Answer (room_of paragraph.old) recorded.now (plain_of paragraph.old) change result }
    ensures plain { plain_of paragraph.new ≡ after_change (room_of paragraph.old) recorded.now (plain_of paragraph.old) change }
    ensures room { room_of paragraph.new ≡ room_of paragraph.old }
{
    match change {
        Change::Edit {
            place,
            removed,
            first,
            end,
        } => paragraph.edit(place, removed, picked(recorded, first, end)),
        Change::Turn { direction } => Ok(paragraph.turn(direction)),
    }
}

// Kept: a loop beside the tree's, here and for questions: one function for both would be public, take the call as a closure and require that it can be called, and public functions require nothing.
/// Carries out recorded changes, one after the other, and writes what each was answered.
pub(crate) fn change_all(
    paragraph: &mut Paragraph<'_, '_>,
    recorded: &[Item],
    changes: &[Change],
    outcomes: &mut [Result<Outcome, ParagraphFault>],
)
    requires { length changes.now ≤ length outcomes.old }
    ensures plain { plain_of paragraph.new ≡ after_all (room_of paragraph.old) recorded.now (plain_of paragraph.old) changes.now }
    ensures answered { Answered (room_of paragraph.old) recorded.now (plain_of paragraph.old) changes.now (take (length changes.now) outcomes.new) }
    ensures spare { drop (length changes.now) outcomes.new ≡ drop (length changes.now) outcomes.old }
{
    // Kept: tried over `outcomes.iter_mut().zip(changes)`; what the slots hold after the loop stayed open.
    for (i, change) in changes.iter().enumerate() {
        outcomes[i] = carry_out(paragraph, recorded, *change);
    }
}
