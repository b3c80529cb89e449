//! Two parts under one row, with rotations where one is too high.

ghost use Rattle.std.specs.Prelude.{◌≡◌, ℕ, ◌+◌, ◌≤◌, Some};
ghost use Rattle.tree.specs.Shapes.{Shape, size, Under, row_of, top_total};
ghost use Rattle.tree.specs.Surgery.{Split, Becomes, rotate_right, rotate_left, rebalanced, joined};

use crate::below::{extent_of, part_of, row_at, write_row};
use crate::measure::Measure;
use crate::row::{Node, Row};

/// A row with the height, count and total of what stands on either side of it now.
pub(crate) fn row_over<E: Copy, T: Measure<E>>(rows: &[Row<E, T>], node: Node<E>) -> Row<E, T>
    requires { ∥ ((a : Shape E T) × (b : Shape E T) × Under rows.now node.left a × Under rows.now node.right b × (size a + 1 + size b ≤ 4096)) ∥₁ }
    ensures { (a b : Shape E T) → Under rows.now node.left a → Under rows.now node.right b → result ≡ row_of a node.element (T.ops.join (T.ops.join (top_total T.ops a) (T.ops.of node.element)) (top_total T.ops b)) b }
{
    let before = part_of(rows, node.left);
    let after = part_of(rows, node.right);
    Row {
        element: node.element,
        left: node.left,
        right: node.right,
        height: 1 + before.height.max(after.height),
        count: before.count + 1 + after.count,
        total: before.total.join(T::of(node.element)).join(after.total),
    }
}

// Kept: rows, index and node apart, here and in the rotations: a struct of them whose ghost field is `Split` would be false after the first write.
/// Writes a row over its place in the table.
pub(crate) fn write_node<E: Copy, T: Measure<E>>(rows: &mut [Row<E, T>], i: u16, node: Node<E>)
    requires { ∥ ((a : Shape E T) × (b : Shape E T) × Split rows.old node.left i node.right a b) ∥₁ }
    ensures { (a b : Shape E T) → Split rows.old node.left i node.right a b → Becomes rows.old rows.new (Some i) (joined T.ops a i node.element b) }
{
    let row = row_over(rows, node);
    write_row(rows, i, row);
}

/// Turns a row and what is too high on its left to the right, once or twice; the index of the row on top.
pub(crate) fn rotate_right<E: Copy, T: Measure<E>>(
    rows: &mut [Row<E, T>],
    i: u16,
    node: Node<E>,
) -> u16
    requires { ∥ ((a : Shape E T) × (b : Shape E T) × Split rows.old node.left i node.right a b) ∥₁ }
    ensures { (a b : Shape E T) → Split rows.old node.left i node.right a b → Becomes rows.old rows.new (Some result) (rotate_right T.ops a i node.element b) }
{
    let Some(l) = node.left else {
        write_node(rows, i, node);
        return i;
    };
    let below = row_at(rows, l);
    if extent_of(rows, below.right).height <= extent_of(rows, below.left).height {
        write_node(
            rows,
            i,
            Node {
                left: below.right,
                ..node
            },
        );
        write_node(
            rows,
            l,
            Node {
                left: below.left,
                element: below.element,
                right: Some(i),
            },
        );
        return l;
    }
    let Some(m) = below.right else {
        write_node(rows, i, node);
        return i;
    };
    let middle = row_at(rows, m);
    write_node(
        rows,
        l,
        Node {
            left: below.left,
            element: below.element,
            right: middle.left,
        },
    );
    write_node(
        rows,
        i,
        Node {
            left: middle.right,
            ..node
        },
    );
    write_node(
        rows,
        m,
        Node {
            left: Some(l),
            element: middle.element,
            right: Some(i),
        },
    );
    m
}

// Kept: the mirror image of `rotate_right`; as one function over a side each of its 13 accesses would be `node.side(near)` or `node.with(far, link)`.
/// The same on the right, to the left.
pub(crate) fn rotate_left<E: Copy, T: Measure<E>>(
    rows: &mut [Row<E, T>],
    i: u16,
    node: Node<E>,
) -> u16
    requires { ∥ ((a : Shape E T) × (b : Shape E T) × Split rows.old node.left i node.right a b) ∥₁ }
    ensures { (a b : Shape E T) → Split rows.old node.left i node.right a b → Becomes rows.old rows.new (Some result) (rotate_left T.ops a i node.element b) }
{
    let Some(l) = node.right else {
        write_node(rows, i, node);
        return i;
    };
    let below = row_at(rows, l);
    if extent_of(rows, below.left).height <= extent_of(rows, below.right).height {
        write_node(
            rows,
            i,
            Node {
                right: below.left,
                ..node
            },
        );
        write_node(
            rows,
            l,
            Node {
                left: Some(i),
                element: below.element,
                right: below.right,
            },
        );
        return l;
    }
    let Some(m) = below.left else {
        write_node(rows, i, node);
        return i;
    };
    let middle = row_at(rows, m);
    write_node(
        rows,
        l,
        Node {
            left: middle.right,
            element: below.element,
            right: below.right,
        },
    );
    write_node(
        rows,
        i,
        Node {
            right: middle.left,
            ..node
        },
    );
    write_node(
        rows,
        m,
        Node {
            left: Some(i),
            element: middle.element,
            right: Some(l),
        },
    );
    m
}

/// Writes a row over its place, rotated with what is too high on one side of it; the index of the row on top.
pub(crate) fn rebalance<E: Copy, T: Measure<E>>(
    rows: &mut [Row<E, T>],
    i: u16,
    node: Node<E>,
) -> u16
    requires { ∥ ((a : Shape E T) × (b : Shape E T) × Split rows.old node.left i node.right a b) ∥₁ }
    ensures { (a b : Shape E T) → Split rows.old node.left i node.right a b → Becomes rows.old rows.new (Some result) (rebalanced T.ops a i node.element b) }
{
    let before = extent_of(rows, node.left).height;
    let after = extent_of(rows, node.right).height;
    if after + 1 < before {
        rotate_right(rows, i, node)
    } else if before + 1 < after {
        rotate_left(rows, i, node)
    } else {
        write_node(rows, i, node);
        i
    }
}
