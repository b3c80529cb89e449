//! The elements of a stretch below a link, written into a buffer.

ghost use Rattle.std.specs.Prelude.{◌≡◌, ℕ, ◌+◌, ◌≤◌, length};
ghost use Rattle.std.specs.List.{between};
ghost use Rattle.tree.specs.Shapes.{Shape, size, elements, Under};

use crate::below::{extent_of, row_at};
use crate::measure::Measure;
use crate::row::Row;

/// Fills a buffer with the elements from a place on.
pub(crate) fn copy_below<E: Copy, T: Measure<E>>(
    rows: &[Row<E, T>],
    link: Option<u16>,
    first: usize,
    out: &mut [E],
)
    requires { ∥ ((s : Shape E T) × Under rows.now link s × (first + length out.old ≤ size s)) ∥₁ }
    ensures { (s : Shape E T) → Under rows.now link s → first + length out.old ≤ size s → out.new ≡ between first (first + length out.old) (elements s) }
{
    let Some(i) = link else { return };
    if out.is_empty() {
        return;
    }
    let row = row_at(rows, i);
    let before = usize::from(extent_of(rows, row.left).count);
    if first > before {
        copy_below(rows, row.right, first - before - 1, out);
        return;
    }
    if first + out.len() <= before {
        copy_below(rows, row.left, first, out);
        return;
    }
    let (front, rest) = out.split_at_mut(before - first);
    copy_below(rows, row.left, first, front);
    rest[0] = row.element;
    copy_below(rows, row.right, 0, &mut rest[1..]);
}
