//! A change of a paragraph as its edges see it.

ghost use Rattle.std.specs.Prelude.{◌+◌, ◌≤◌, length};
ghost use Rattle.paragraph.specs.Paragraphs.{items_of};

use crate::paragraph::Paragraph;
use crate::span::Edges;

/// A paragraph after a change that put `count` new items at a place. The edges of the new items saw `was` before it, and see `is` now.
#[derive(Clone, Copy)]
pub(crate) struct Change<'p, 't, 'a> {
    pub(crate) paragraph: &'p Paragraph<'t, 'a>,
    pub(crate) place: usize,
    pub(crate) count: usize,
    pub(crate) was: Edges,
    pub(crate) is: Edges,
    ghost fits: { place + count ≤ length (items_of paragraph.now) },
}
