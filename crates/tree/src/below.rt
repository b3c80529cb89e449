//! Rows by a link, and what stands below one: its height, size and total, and the element at a place.

ghost use Rattle.std.specs.Prelude.{◌≡◌, ℕ, ◌<◌, length, Some, slice_set};
ghost use Rattle.std.specs.List.{slice_get};
ghost use Rattle.tree.specs.Shapes.{Shape, size, elements, Under, depth, tall};
ghost use Rattle.tree.specs.Surgery.{part_of};

use crate::measure::Measure;
use crate::row::{Extent, Part, Row};

/// The row that a link leads to.
pub(crate) fn row_at<E: Copy, T: Copy>(rows: &[Row<E, T>], i: u16) -> Row<E, T>
    requires { i < length rows.now }
    ensures { slice_get rows.now i ≡ Some result }
{
    rows[i as usize]
}

/// Writes the row that a link leads to.
pub(crate) fn write_row<E: Copy, T: Copy>(rows: &mut [Row<E, T>], i: u16, row: Row<E, T>)
    requires { i < length rows.old }
    ensures { rows.new ≡ slice_set rows.old i row }
{
    rows[i as usize] = row;
}

// Kept: the rows and a link apart, here and wherever a link is followed; as methods of a struct of both with a ghost shape each walk would be `self.left().read(place)`, a struct made and its fact shown anew at each row.
/// How high the part below a link is, and how many rows it has; its total is not asked for.
pub(crate) fn extent_of<E: Copy, T: Measure<E>>(rows: &[Row<E, T>], link: Option<u16>) -> Extent
    requires { ∥ ((s : Shape E T) × Under rows.now link s × Unit {0}) ∥₁ }
    ensures height { (s : Shape E T) → Under rows.now link s → result.height ≡ tall s }
    ensures count { (s : Shape E T) → Under rows.now link s → result.count ≡ size s }
{
    match link {
        Some(i) => {
            let row = row_at(rows, i);
            Extent {
                height: row.height,
                count: row.count,
            }
        }
        None => Extent {
            height: 0,
            count: 0,
        },
    }
}

/// What a row needs to know of the part below a link.
pub(crate) fn part_of<E: Copy, T: Measure<E>>(rows: &[Row<E, T>], link: Option<u16>) -> Part<T>
    requires { ∥ ((s : Shape E T) × Under rows.now link s × Unit {0}) ∥₁ }
    ensures { (s : Shape E T) → Under rows.now link s → result ≡ part_of T.ops s }
{
    match link {
        Some(i) => {
            let row = row_at(rows, i);
            Part {
                height: row.height,
                count: row.count,
                total: row.total,
            }
        }
        None => Part {
            height: 0,
            count: 0,
            total: T::unit(),
        },
    }
}

/// The element at a place, and its depth below the link.
pub(crate) fn read_below<E: Copy, T: Measure<E>>(
    rows: &[Row<E, T>],
    link: Option<u16>,
    place: u16,
) -> (E, u16)
    requires { ∥ ((s : Shape E T) × Under rows.now link s × (place < size s)) ∥₁ }
    ensures { (s : Shape E T) → Under rows.now link s → place < size s → (slice_get (elements s) place ≡ Some result.0) × (result.1 ≡ depth s place) }
{
    let Some(i) = link else { unreachable() };
    let row = row_at(rows, i);
    let before = extent_of(rows, row.left).count;
    if place < before {
        let (element, depth) = read_below(rows, row.left, place);
        (element, depth + 1)
    } else if place == before {
        (row.element, 1)
    } else {
        let (element, depth) = read_below(rows, row.right, place - before - 1);
        (element, depth + 1)
    }
}
