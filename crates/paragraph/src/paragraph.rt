//! The paragraph: a tree of items that a caller lends, and a direction.

ghost use Rattle.std.specs.Prelude.{◌≤◌, length};
ghost use Rattle.tree.specs.Trees.{TotalsRight, elements_of};
ghost use Rattle.paragraph.specs.Totals.{total_ops};

use bidi::columns::Columns;
use bidi::contexts::Contexts;
use bidi::item::Item;
use rules::Direction;
use tree::pair::Pair;
use tree::tree::Tree;

/// The total of a part of a paragraph: the columns that it takes, and what it does to contexts.
pub type Total = Pair<Columns, Contexts>;

/// Items in their order, with a direction. The totals that its tree stores are right, and it has at most 4,096 items.
#[derive(Drop)]
pub struct Paragraph<'t, 'a> {
    pub(crate) tree: &'t mut Tree<'a, Item, Total>,
    pub(crate) direction: Direction,
    ghost totals: { ∥ TotalsRight total_ops tree.now ∥₁ },
    ghost few: { length (elements_of tree.now) ≤ 4096 },
}
