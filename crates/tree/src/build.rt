//! A balanced part built of elements, bottom-up.

ghost use Rattle.std.specs.Prelude.{◌≤◌, length};
ghost use Rattle.tree.specs.Building.{Builds, Filling};

use crate::balance::write_node;
use crate::measure::Measure;
use crate::row::{Heads, Node, Row};

/// Builds a part of the elements from `first` up to and without `end`. The element of a place stands in the row of that number.
pub(crate) fn build_below<E: Copy, T: Measure<E>>(
    rows: &mut [Row<E, T>],
    elements: &[E],
    first: u16,
    end: u16,
) -> Option<u16>
    requires ordered { first ≤ end }
    requires within { end ≤ length elements.now }
    requires space { end ≤ length rows.old }
    requires room { end ≤ 4096 }
    ensures { Builds T.ops rows.old rows.new elements.now first end result }
{
    if first == end {
        return None;
    }
    let middle = first + (end - first) / 2;
    let left = build_below(rows, elements, first, middle);
    let right = build_below(rows, elements, middle + 1, end);
    let node = Node {
        left,
        element: elements[middle as usize],
        right,
    };
    write_node(rows, middle, node);
    Some(middle)
}

/// Builds a tree of the elements, whatever the rows held.
pub(crate) fn fill_in<E: Copy, T: Measure<E>>(rows: &mut [Row<E, T>], elements: &[E]) -> Heads
    requires space { length elements.now ≤ length rows.old }
    requires room { length elements.now ≤ 4096 }
    ensures { Filling T.ops rows.new result elements.now }
{
    let count = elements.len() as u16;
    let root = build_below(rows, elements, 0, count);
    Heads {
        root,
        free: None,
        used: count,
        count,
    }
}
