//! Calls on a tree as values, so that a list of them can be recorded and run.

// Kept: calls as values and no closures, here and below, since the law speaks of each recorded call.
/// A call that changes a tree.
#[derive(Clone, Copy)]
pub enum Change<E> {
    /// Put an element before a place.
    Insert { place: usize, element: E },
    /// Take out the element at a place.
    Remove { place: usize },
}

/// A call that only asks.
#[derive(Clone, Copy)]
pub enum Question {
    /// The element at a place, and its depth.
    Read { place: usize },
    /// The total of a stretch.
    Total { first: usize, end: usize },
}

/// What a question was told.
#[derive(Clone, Copy)]
pub enum Told<E, T> {
    /// An element, and the depth of its row.
    Element(E, u16),
    /// The total of a stretch.
    Sum(T),
}
