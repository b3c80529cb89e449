//! The tree: rows that a caller lends, and where it begins in them.

ghost use Rattle.tree.specs.Shapes.{Sound};

use crate::row::{Heads, Row};

// Kept: that the stored totals are right is no fact of the type: it would bound `E` and `T` here, and so ask more of each type that holds a tree.
/// A list of elements, held as a balanced tree in the rows that its caller lent. The rows are sound whenever it can be used.
#[derive(Drop)]
pub struct Tree<'a, E, T> {
    pub(crate) rows: &'a mut [Row<E, T>],
    pub(crate) heads: Heads,
    ghost sound: { ∥ (Sound rows.now heads.root heads.free heads.used heads.count) ∥₁ },
}
