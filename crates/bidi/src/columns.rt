//! The columns that a part of a paragraph takes.

/// The sum of the widths of a part's items, held at 4,294,967,295.
#[derive(Clone, Copy)]
pub struct Columns {
    pub width: u32,
}
