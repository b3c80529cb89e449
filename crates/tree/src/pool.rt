//! Rows taken for an element and given up again, and an element changed.

ghost use Rattle.std.specs.Prelude.{◌≡◌, ℕ, ◌+◌, ◌<◌, ◌≤◌, List, length};
ghost use Rattle.tree.specs.Shapes.{one, Pool, Sound};
ghost use Rattle.tree.specs.Changes.{Insertion, Removal, Setting};

use crate::below::{row_at, write_row};
use crate::insert::insert_below;
use crate::measure::Measure;
use crate::remove::remove_below;
use crate::row::{Heads, Row};
use crate::set::set_below;

/// A row that was taken, and what is left to take.
#[derive(Clone, Copy)]
pub(crate) struct Taken {
    pub(crate) row: u16,
    pub(crate) free: Option<u16>,
    pub(crate) used: u16,
}

/// Takes a row that was given up, else one that was never used.
pub(crate) fn take_row<E: Copy, T: Copy>(rows: &[Row<E, T>], free: Option<u16>, used: u16) -> Taken
    requires { ∥ ((u : ℕ → ℕ) × (m : ℕ) × (f : List ℕ) × Pool rows.now free used u m f × (m < 4096) × (m < length rows.now)) ∥₁ }
    ensures { (u : ℕ → ℕ) (m : ℕ) (f : List ℕ) → Pool rows.now free used u m f → m < 4096 → m < length rows.now → (result.row < length rows.now) × ((left : List ℕ) × Pool rows.now result.free result.used (λ n. u n + one result.row n) (m + 1) left) }
{
    match free {
        Some(i) => Taken {
            row: i,
            free: row_at(rows, i).left,
            used,
        },
        None => Taken {
            row: used,
            free: None,
            used: used + 1,
        },
    }
}

// Kept: apart from the tree's calls, here and below, over its rows and heads: these say what becomes of the rows, and the calls of what list that is; as one, each proof would be both.
/// Puts an element before a place.
pub(crate) fn insert_in<E: Copy, T: Measure<E>>(
    rows: &mut [Row<E, T>],
    heads: Heads,
    place: u16,
    element: E,
) -> Heads
    requires sound { ∥ (Sound rows.old heads.root heads.free heads.used heads.count) ∥₁ }
    requires within { place ≤ heads.count }
    requires room { heads.count < 4096 }
    requires space { heads.count < length rows.old }
    ensures { Insertion T.ops rows.old rows.new heads result place element }
{
    let taken = take_row(rows, heads.free, heads.used);
    let root = insert_below(rows, heads.root, place, taken.row, element);
    Heads {
        root: Some(root),
        free: taken.free,
        used: taken.used,
        count: heads.count + 1,
    }
}

/// Takes out the element at a place; its row can be used again.
pub(crate) fn remove_in<E: Copy, T: Measure<E>>(
    rows: &mut [Row<E, T>],
    heads: Heads,
    place: u16,
) -> (Heads, E)
    requires sound { ∥ (Sound rows.old heads.root heads.free heads.used heads.count) ∥₁ }
    requires within { place < heads.count }
    ensures { Removal T.ops rows.old rows.new heads result.0 place result.1 }
{
    let out = remove_below(rows, heads.root, place);
    let row = row_at(rows, out.row);
    write_row(
        rows,
        out.row,
        Row {
            left: heads.free,
            ..row
        },
    );
    let heads = Heads {
        root: out.rest,
        free: Some(out.row),
        used: heads.used,
        count: heads.count - 1,
    };
    (heads, out.element)
}

/// Changes the element at a place.
pub(crate) fn set_in<E: Copy, T: Measure<E>>(
    rows: &mut [Row<E, T>],
    heads: Heads,
    place: u16,
    element: E,
)
    requires sound { ∥ (Sound rows.old heads.root heads.free heads.used heads.count) ∥₁ }
    requires within { place < heads.count }
    ensures { Setting T.ops rows.old rows.new heads place element }
{
    set_below(rows, heads.root, place, element);
}
