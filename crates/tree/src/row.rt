//! The rows that a tree stands in.

ghost use Rattle.std.specs.Prelude.{◌≡◌, None};

use crate::measure::Measure;

// Kept: links are places in the rows that a caller lends, and `Heads` counts the used ones: the tree may use no heap, so no `Box` and no `Vec`.
/// One row: an element, the rows below it on either side, and the height, count and total of its part.
#[derive(Clone, Copy)]
pub struct Row<E, T> {
    pub element: E,
    pub left: Option<u16>,
    pub right: Option<u16>,
    pub height: u16,
    pub count: u16,
    pub total: T,
}

impl<E: Copy, T: Measure<E>> Row<E, T> {
    /// A row to fill a new table with. A tree asks nothing of the rows that it is lent.
    pub fn new(element: E) -> Self
        ensures { result ≡ record { element = element; left = None; right = None; height = 0; count = 0; total = T.ops.unit } }
    {
        Row {
            element,
            left: None,
            right: None,
            height: 0,
            count: 0,
            total: T::unit(),
        }
    }
}

/// What is written to a row: its element, and the rows below it on either side. The rest follows from these.
#[derive(Clone, Copy)]
pub(crate) struct Node<E> {
    pub(crate) left: Option<u16>,
    pub(crate) element: E,
    pub(crate) right: Option<u16>,
}

/// The height of a part, and how many rows it has.
#[derive(Clone, Copy)]
pub(crate) struct Extent {
    pub(crate) height: u16,
    pub(crate) count: u16,
}

/// What a row needs to know of the part on one side of it.
#[derive(Clone, Copy)]
pub(crate) struct Part<T> {
    pub(crate) height: u16,
    pub(crate) count: u16,
    pub(crate) total: T,
}

/// What is not in the rows: the root, the rows given up, how many rows were ever used, and how many are in use.
#[derive(Clone, Copy)]
pub(crate) struct Heads {
    pub(crate) root: Option<u16>,
    pub(crate) free: Option<u16>,
    pub(crate) used: u16,
    pub(crate) count: u16,
}

impl Heads {
    /// No row was ever used.
    pub(crate) const EMPTY: Heads = Heads {
        root: None,
        free: None,
        used: 0,
        count: 0,
    };
}
