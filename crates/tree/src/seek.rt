//! The place that a weight leads to below a link.

ghost use Rattle.std.specs.Prelude.{◌≡◌, ℕ, ◌≤◌};
ghost use Rattle.tree.specs.Shapes.{Shape, size, elements, Under, Totalled};
ghost use Rattle.tree.specs.Weights.{over, weight_of};

use crate::below::{part_of, row_at};
use crate::measure::Measure;
use crate::row::Row;

/// The first place whose element, with all before it, weighs more than `weight`.
pub(crate) fn seek_below<E: Copy, T: Measure<E>>(
    rows: &[Row<E, T>],
    link: Option<u16>,
    weight: u32,
) -> u16
    requires { ∥ ((s : Shape E T) × Under rows.now link s × Unit {0}) ∥₁ }
    ensures within { (s : Shape E T) → Under rows.now link s → result ≤ size s }
    ensures place { (s : Shape E T) → Under rows.now link s → Totalled T.ops s → result ≡ over (weight_of T.ops) weight (elements s) }
{
    let Some(i) = link else {
        return 0;
    };
    let row = row_at(rows, i);
    let left = part_of(rows, row.left);
    let before = left.total.weight();
    if weight < before {
        return seek_below(rows, row.left, weight);
    }
    let rest = weight - before;
    let own = T::of(row.element).weight();
    if rest < own {
        return left.count;
    }
    left.count + 1 + seek_below(rows, row.right, rest - own)
}
