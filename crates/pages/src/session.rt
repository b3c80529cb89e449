//! Carrying out the lines of a text.

ghost use Rattle.std.specs.Prelude.{◌≡◌, ◌<◌, ◌∷◌, length, IfOk, string_bytes};
ghost use Rattle.page.specs.Pages.{entries_of, room_of};
ghost use Rattle.pages.specs.Lines.{lines_in};
ghost use Rattle.pages.specs.Reports.{transcript, output};

use crate::cut::cut;
use crate::report::{end_report, line_report};
use crate::step::step;
use page::entry::Entry;
use page::page::Page;
use std::alloc::{AllocError, Global};
use tree::row::Row;
use tree::tree::Tree;

/// The most bytes that are carried out.
pub const LIMIT: usize = 16384;

const LINE_FEED: u8 = b'\n';

/// Fills the rows of a new page.
const BLANK: Entry = Entry {
    key: 0,
    lines: 1,
    hits: 0,
};

/// The first line of a text, and the text behind it.
fn next_line<'a>(text: &'a [u8]) -> (&'a [u8], &'a [u8])
    ensures lines { 0 < length text.now → lines_in text.now ≡ result.0.now ∷ lines_in result.1.now }
    ensures less { 0 < length text.now → length result.1.now < length text.now }
{
    let (line, behind) = cut(text, LINE_FEED);
    match behind {
        Some(rest) => (line, rest),
        None => (line, &text[text.len()..]),
    }
}

/// Carries out every line of a text on a page, and answers what is to be printed.
pub(crate) fn run(heap: Global, page: &mut Page<'_, '_>, text: &[u8]) -> Result<String, AllocError>
    ensures { IfOk result (λ s. string_bytes s ≡ transcript (room_of page.old) (entries_of page.old) text.now) }
{
    let mut printed = String::new(heap);
    let mut rest = text;
    let mut done: usize = 0;
    let mut refused: usize = 0;
    // Kept: tried over `text.split_inclusive(|b| *b == LINE_FEED)`; that its pieces are the lines stayed open.
    while !rest.is_empty() {
        let (line, behind) = next_line(rest);
        let outcome = step(page, line);
        done += 1;
        if outcome.is_err() {
            refused += 1;
        }
        let report = line_report(heap, done, outcome)?;
        printed.push_str(report.as_str())?;
        rest = behind;
    }
    let report = end_report(heap, page, refused)?;
    printed.push_str(report.as_str())?;
    Ok(printed)
}

/// What the program prints for its input.
pub fn respond(heap: Global, input: &[u8]) -> Result<String, AllocError>
    ensures { IfOk result (λ s. string_bytes s ≡ output input.now) }
{
    if input.len() > LIMIT {
        // Kept: 28 stands in the text, since clients are told a number; as a case of `Refusal` it would be one that no line can get.
        return String::from_str(heap, "!\t0\t28\n");
    }
    let mut rows = [Row::new(BLANK); 256];
    let mut tree = Tree::open(&mut rows);
    let mut page = Page::open(&mut tree);
    run(heap, &mut page, input)
}
