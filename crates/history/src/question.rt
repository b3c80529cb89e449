//! One recorded question, and a list of them.

ghost use Rattle.std.specs.Prelude.{◌≡◌, ◌≤◌, map, length, take, drop};
ghost use Rattle.tree.specs.Trees.{depth_in};
ghost use Rattle.paragraph.specs.Faults.{numbered};
ghost use Rattle.paragraph.specs.Paragraphs.{plain_of};
ghost use Rattle.history.specs.Questions.{question_answer};

use crate::request::{Question, Told};
use paragraph::fault::ParagraphFault;
use paragraph::paragraph::Paragraph;

/// Answers a recorded question.
fn ask(paragraph: &Paragraph<'_, '_>, question: Question) -> Result<Told, ParagraphFault>
    ensures { numbered result ≡ question_answer (plain_of paragraph.now) (depth_in paragraph.now.tree.now) question }
{
    match question {
        Question::Level { place } => {
            let (level, depth) = paragraph.level(place)?;
            Ok(Told::Level(level, depth))
        }
        Question::Column { place } => {
            let (column, width) = paragraph.column(place)?;
            Ok(Told::Column(column, width))
        }
    }
}

/// Answers recorded questions, one after the other, and writes what each was told.
pub(crate) fn ask_all(
    paragraph: &Paragraph<'_, '_>,
    questions: &[Question],
    answers: &mut [Result<Told, ParagraphFault>],
)
    requires { length questions.now ≤ length answers.old }
    ensures told { map numbered (take (length questions.now) answers.new) ≡ map (question_answer (plain_of paragraph.now) (depth_in paragraph.now.tree.now)) questions.now }
    ensures spare { drop (length questions.now) answers.new ≡ drop (length questions.now) answers.old }
{
    // Kept: tried over `answers.iter_mut().zip(questions)`; what the slots hold after the loop stayed open.
    for (i, question) in questions.iter().enumerate() {
        answers[i] = ask(paragraph, *question);
    }
}
