//! Another element at a place below a link.

ghost use Rattle.std.specs.Prelude.{◌≡◌, ℕ, ◌<◌};
ghost use Rattle.tree.specs.Shapes.{Shape, size};
ghost use Rattle.tree.specs.Surgery.{Loose, Becomes, changed_at};

use crate::balance::write_node;
use crate::below::{extent_of, row_at};
use crate::measure::Measure;
use crate::row::{Node, Row};

/// Changes the element at a place, and the totals on the way to it. No row moves.
pub(crate) fn set_below<E: Copy, T: Measure<E>>(
    rows: &mut [Row<E, T>],
    link: Option<u16>,
    place: u16,
    element: E,
)
    requires { ∥ ((s : Shape E T) × Loose rows.old link s × (place < size s)) ∥₁ }
    ensures { (s : Shape E T) → Loose rows.old link s → place < size s → Becomes rows.old rows.new link (changed_at T.ops s place element) }
{
    let Some(i) = link else { unreachable() };
    let row = row_at(rows, i);
    let before = extent_of(rows, row.left).count;
    let node = Node {
        left: row.left,
        element: row.element,
        right: row.right,
    };
    if place < before {
        set_below(rows, row.left, place, element);
        write_node(rows, i, node);
    } else if place == before {
        write_node(rows, i, Node { element, ..node });
    } else {
        set_below(rows, row.right, place - before - 1, element);
        write_node(rows, i, node);
    }
}
