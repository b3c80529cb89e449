//! What a change of a paragraph is answered.

use crate::span::Span;

// Kept: the base level as a number, since users are told a level.
/// How many items are there, the base level, and the span of the items that are new or have another level than before.
#[derive(Clone, Copy)]
pub struct Outcome {
    pub count: usize,
    pub base: u8,
    pub span: Option<Span>,
}
