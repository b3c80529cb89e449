//! An element below a link, between the totals of what stands before and behind it.

ghost use Rattle.std.specs.Prelude.{◌≡◌, ℕ, ◌<◌};
ghost use Rattle.tree.specs.Shapes.{Shape, size, Under};
ghost use Rattle.tree.specs.Sides.{Around};

use crate::below::{part_of, row_at};
use crate::measure::Measure;
use crate::row::Row;

/// The element at a place. What is passed by on the way down is joined to one of the two totals, so one path is gone down.
pub(crate) fn around_below<E: Copy, T: Measure<E>>(
    rows: &[Row<E, T>],
    root: Option<u16>,
    target: u16,
) -> (T, E, T)
    requires { ∥ ((s : Shape E T) × Under rows.now root s × (target < size s)) ∥₁ }
    ensures { (s : Shape E T) → Under rows.now root s → target < size s → Around T.ops s target T.ops.unit T.ops.unit result }
{
    let mut link = root;
    let mut place = target;
    let mut before = T::unit();
    let mut behind = T::unit();
    while let Some(i) = link {
        let row = row_at(rows, i);
        let left = part_of(rows, row.left);
        let right = part_of(rows, row.right);
        if place < left.count {
            behind = T::of(row.element).join(right.total).join(behind);
            link = row.left;
        } else if place == left.count {
            return (
                before.join(left.total),
                row.element,
                right.total.join(behind),
            );
        } else {
            before = before.join(left.total).join(T::of(row.element));
            place = place - left.count - 1;
            link = row.right;
        }
    }
    unreachable()
}
