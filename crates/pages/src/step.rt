//! Carrying out one line.

ghost use Rattle.std.specs.Prelude.{◌≡◌};
ghost use Rattle.page.specs.Pages.{entries_of, room_of};
ghost use Rattle.pages.specs.Session.{told, call_answer, after_call, line_answer, after_line};

use crate::answer::Answer;
use crate::call::{Call, Refusal};
use crate::parse::parse;
use page::page::Page;

/// Carries out a call.
fn carry_out(page: &mut Page<'_, '_>, call: Call) -> Result<Answer, Refusal>
    ensures answer { told result ≡ call_answer (room_of page.old) (entries_of page.old) call }
    ensures entries { entries_of page.new ≡ after_call (room_of page.old) (entries_of page.old) call }
    ensures room { room_of page.new ≡ room_of page.old }
{
    match call {
        Call::Put {
            place,
            key,
            lines,
            hits,
        } => {
            page.put(place as usize, key, lines, hits)?;
            Ok(Answer::Put(page.len()))
        }
        Call::Take { place } => Ok(Answer::Taken(page.take(place as usize)?)),
        Call::Find { line } => Ok(Answer::Found(page.find(line)?)),
    }
}

/// Carries out a line.
pub(crate) fn step(page: &mut Page<'_, '_>, line: &[u8]) -> Result<Answer, Refusal>
    ensures answer { told result ≡ line_answer (room_of page.old) (entries_of page.old) line.now }
    ensures entries { entries_of page.new ≡ after_line (room_of page.old) (entries_of page.old) line.now }
    ensures room { room_of page.new ≡ room_of page.old }
{
    let call = parse(line)?;
    carry_out(page, call)
}
