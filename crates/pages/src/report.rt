//! What is printed.

ghost use Rattle.std.specs.Prelude.{◌≡◌, Some, IfOk, string_bytes};
ghost use Rattle.page.specs.Pages.{entries_of};
ghost use Rattle.pages.specs.Session.{told};
ghost use Rattle.pages.specs.Reports.{answer_text, line_text, end_text};

use crate::answer::Answer;
use crate::call::Refusal;
use page::entry::Entry;
use page::page::Page;
use page::sums::PageSums;
use std::alloc::{AllocError, Global};
use std::fmt;

/// The line that tells an answer.
impl fmt::Display for Answer {
    ghost output = { λ answer. Some (answer_text answer) };

    fn fmt<W: fmt::Write>(&self, f: &mut fmt::Formatter<W>) -> fmt::Result {
        match self {
            Answer::Put(count) => write!(f, "put\t{count}\n"),
            Answer::Taken(entry) => {
                let Entry {
                    key,
                    lines,
                    hits,
                    ..
                } = entry;
                write!(f, "take\t{key}\t{lines}\t{hits}\n")
            }
            Answer::Found(entry) => {
                let Entry {
                    key,
                    lines,
                    hits,
                    ..
                } = entry;
                write!(f, "find\t{key}\t{lines}\t{hits}\n")
            }
        }
    }
}

/// The line that tells the outcome of a line.
pub(crate) fn line_report(
    heap: Global,
    number: usize,
    outcome: Result<Answer, Refusal>,
) -> Result<String, AllocError>
    ensures { IfOk result (λ s. string_bytes s ≡ line_text number (told outcome)) }
{
    match outcome {
        Ok(answer) => format!(in heap; "{answer}"),
        Err(refusal) => {
            let code = refusal.number();
            format!(in heap; "!\t{number}\t{code}\n")
        }
    }
}

/// The line that closes a session.
pub(crate) fn end_report(
    heap: Global,
    page: &Page<'_, '_>,
    refused: usize,
) -> Result<String, AllocError>
    ensures { IfOk result (λ s. string_bytes s ≡ end_text (entries_of page.now) refused) }
{
    let count = page.len();
    let PageSums { lines, hits } = page.sums();
    format!(in heap; "end\t{count}\t{lines}\t{hits}\t{refused}\n")
}
