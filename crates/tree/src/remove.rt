//! A row taken out below a link.

ghost use Rattle.std.specs.Prelude.{◌≡◌, ℕ, ◌<◌, Some};
ghost use Rattle.tree.specs.Shapes.{Shape, size};
ghost use Rattle.tree.specs.Surgery.{Loose, Sides, Becomes, rest as without_last, merged, last_row, last_of};
ghost use Rattle.tree.specs.Changes.{Removes};

use crate::balance::rebalance;
use crate::below::{extent_of, row_at};
use crate::measure::Measure;
use crate::row::{Node, Row};

/// A part without one of its rows, and that row with its element.
#[derive(Clone, Copy)]
pub(crate) struct Detached<E> {
    pub(crate) rest: Option<u16>,
    pub(crate) row: u16,
    pub(crate) element: E,
}

// Kept: rows and a loose link apart, here, below and in `set_below`, for the reason at `extent_of`.
/// Detaches the last row of a part.
pub(crate) fn detach_last<E: Copy, T: Measure<E>>(rows: &mut [Row<E, T>], i: u16) -> Detached<E>
    requires { ∥ ((s : Shape E T) × Loose rows.old (Some i) s) ∥₁ }
    ensures turned { (s : Shape E T) → Loose rows.old (Some i) s → Becomes rows.old rows.new result.rest (without_last T.ops s) }
    ensures named { (s : Shape E T) (n : ℕ) (d : E) → Loose rows.old (Some i) s → (result.row ≡ last_row n s) × (result.element ≡ last_of d s) }
{
    let row = row_at(rows, i);
    let Some(next) = row.right else {
        return Detached {
            rest: row.left,
            row: i,
            element: row.element,
        };
    };
    let deep = detach_last(rows, next);
    let top = rebalance(
        rows,
        i,
        Node {
            left: row.left,
            element: row.element,
            right: deep.rest,
        },
    );
    Detached {
        rest: Some(top),
        ..deep
    }
}

/// Puts two parts that stood under one row side by side.
pub(crate) fn merge<E: Copy, T: Measure<E>>(
    rows: &mut [Row<E, T>],
    left: Option<u16>,
    right: Option<u16>,
) -> Option<u16>
    requires { ∥ ((a : Shape E T) × (b : Shape E T) × Sides rows.old left right a b) ∥₁ }
    ensures { (a b : Shape E T) → Sides rows.old left right a b → Becomes rows.old rows.new result (merged T.ops a b) }
{
    let Some(l) = left else {
        return right;
    };
    let last = detach_last(rows, l);
    let node = Node {
        left: last.rest,
        element: last.element,
        right,
    };
    Some(rebalance(rows, last.row, node))
}

/// Detaches the row at a place.
pub(crate) fn remove_below<E: Copy, T: Measure<E>>(
    rows: &mut [Row<E, T>],
    link: Option<u16>,
    place: u16,
) -> Detached<E>
    requires { ∥ ((s : Shape E T) × Loose rows.old link s × (place < size s)) ∥₁ }
    ensures { (s : Shape E T) → Loose rows.old link s → place < size s → Removes T.ops rows.old rows.new s place result }
{
    let Some(i) = link else { unreachable() };
    let row = row_at(rows, i);
    let before = extent_of(rows, row.left).count;
    if place < before {
        let deep = remove_below(rows, row.left, place);
        let top = rebalance(
            rows,
            i,
            Node {
                left: deep.rest,
                element: row.element,
                right: row.right,
            },
        );
        Detached {
            rest: Some(top),
            ..deep
        }
    } else if place == before {
        let rest = merge(rows, row.left, row.right);
        Detached {
            rest,
            row: i,
            element: row.element,
        }
    } else {
        let deep = remove_below(rows, row.right, place - before - 1);
        let top = rebalance(
            rows,
            i,
            Node {
                left: row.left,
                element: row.element,
                right: deep.rest,
            },
        );
        Detached {
            rest: Some(top),
            ..deep
        }
    }
}
