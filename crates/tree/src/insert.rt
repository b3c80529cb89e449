//! A row put in below a link.

ghost use Rattle.std.specs.Prelude.{◌≡◌, ℕ, Some};
ghost use Rattle.tree.specs.Shapes.{Shape};
ghost use Rattle.tree.specs.Surgery.{Becomes, Fresh, inserted_at};

use crate::balance::{rebalance, write_node};
use crate::below::{extent_of, row_at};
use crate::measure::Measure;
use crate::row::{Node, Row};

/// Puts a fresh row with an element before a place below the link, and answers the row on top.
pub(crate) fn insert_below<E: Copy, T: Measure<E>>(
    rows: &mut [Row<E, T>],
    link: Option<u16>,
    place: u16,
    fresh: u16,
    element: E,
) -> u16
    requires { ∥ ((s : Shape E T) × Fresh rows.old link place fresh s) ∥₁ }
    ensures { (s : Shape E T) → Fresh rows.old link place fresh s → Becomes rows.old rows.new (Some result) (inserted_at T.ops s place fresh element) }
{
    let Some(i) = link else {
        let leaf = Node {
            left: None,
            element,
            right: None,
        };
        write_node(rows, fresh, leaf);
        return fresh;
    };
    let row = row_at(rows, i);
    let before = extent_of(rows, row.left).count;
    if place <= before {
        let left = insert_below(rows, row.left, place, fresh, element);
        rebalance(
            rows,
            i,
            Node {
                left: Some(left),
                element: row.element,
                right: row.right,
            },
        )
    } else {
        let right = insert_below(rows, row.right, place - before - 1, fresh, element);
        rebalance(
            rows,
            i,
            Node {
                left: row.left,
                element: row.element,
                right: Some(right),
            },
        )
    }
}
