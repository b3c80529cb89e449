//! The page: a tree of entries that a caller lends.

ghost use Rattle.std.specs.Prelude.{◌≤◌, length};
ghost use Rattle.tree.specs.Trees.{TotalsRight, elements_of};
ghost use Rattle.page.specs.Sums.{page_ops};

use crate::entry::Entry;
use crate::sums::PageSums;
use tree::tree::Tree;

/// A page of found entries. The totals that its tree stores are right, and it has at most 4,096 entries.
#[derive(Drop)]
pub struct Page<'t, 'a> {
    pub(crate) tree: &'t mut Tree<'a, Entry, PageSums>,
    ghost totals: { ∥ TotalsRight page_ops tree.now ∥₁ },
    ghost few: { length (elements_of tree.now) ≤ 4096 },
}
