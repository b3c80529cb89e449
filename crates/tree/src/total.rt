//! The total of a stretch below a link.

ghost use Rattle.std.specs.Prelude.{◌≡◌, ℕ, ◌≤◌};
ghost use Rattle.std.specs.List.{between};
ghost use Rattle.tree.specs.Measures.{total_of};
ghost use Rattle.tree.specs.Shapes.{Shape, size, elements, Under, Totalled};

use crate::below::{extent_of, row_at};
use crate::measure::Measure;
use crate::row::Row;

/// Joins the totals of a stretch. A part that lies in the stretch whole gives the total that its row stores, so only two paths are gone down.
pub(crate) fn total_below<E: Copy, T: Measure<E>>(
    rows: &[Row<E, T>],
    link: Option<u16>,
    first: u16,
    end: u16,
) -> T
    requires { ∥ ((s : Shape E T) × Under rows.now link s × ((first ≤ end) × (end ≤ size s))) ∥₁ }
    ensures { (s : Shape E T) → Under rows.now link s → Totalled T.ops s → first ≤ end → end ≤ size s → result ≡ total_of T.ops (between first end (elements s)) }
{
    let Some(i) = link else {
        return T::unit();
    };
    if first == end {
        return T::unit();
    }
    let row = row_at(rows, i);
    if first == 0 && end == row.count {
        return row.total;
    }
    let before = extent_of(rows, row.left).count;
    if end <= before {
        return total_below(rows, row.left, first, end);
    }
    if first > before {
        return total_below(rows, row.right, first - before - 1, end - before - 1);
    }
    let left = total_below(rows, row.left, first, before);
    let right = total_below(rows, row.right, 0, end - before - 1);
    left.join(T::of(row.element)).join(right)
}
