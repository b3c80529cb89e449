//! The stretch of a paragraph that a change of it changes.

ghost use Rattle.std.specs.Prelude.{◌≡◌, ◌+◌, ◌<◌, ◌≤◌, ◌^◌};
ghost use Rattle.paragraph.specs.Spans.{SpanOf, point as point_of, hull as hull_of, SpanIsUnique};

use rules::{Class, Left, Right, Side};

/// The places from `first` up to and without `end`.
#[derive(Clone, Copy)]
pub struct Span {
    pub first: usize,
    pub end: usize,
}

/// What the edges of a stretch see: the base direction, the right context at the left edge and the left context at the right edge.
#[derive(Clone, Copy)]
pub(crate) struct Edges {
    pub(crate) base: Side,
    pub(crate) right: Right,
    pub(crate) left: Left,
}

/// The class of an item, and the contexts on either side of it.
#[derive(Clone, Copy)]
pub(crate) struct Surroundings {
    pub(crate) left: Left,
    pub(crate) class: Class,
    pub(crate) right: Right,
}

impl Span {
    /// The span of one place.
    pub(crate) fn point(place: usize) -> Span
        requires { place + 1 < 2 ^ 64 }
        ensures { Some result ≡ point_of place }
    {
        Span {
            first: place,
            end: place + 1,
        }
    }

    /// The span of a stretch, none where it is empty.
    pub(crate) fn stretch(first: usize, end: usize) -> Option<Span>
        ensures { SpanOf (λ i. (first ≤ i) × (i < end)) result }
    {
        (first < end).then_some(Span { first, end })
    }
}

/// The span of the places of both.
pub(crate) fn hull(a: Option<Span>, b: Option<Span>) -> Option<Span>
    ensures { result ≡ hull_of a b }
{
    match (a, b) {
        (Some(s), Some(t)) => Some(Span {
            first: s.first.min(t.first),
            end: s.end.max(t.end),
        }),
        _ => a.or(b),
    }
}

/// A change has one span.
pub fn spans_are_unique()
    ensures { SpanIsUnique }
{}
