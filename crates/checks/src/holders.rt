//! Types of a caller's own that hold a tree: none of them has to state that its totals are a measure.

use tree::measure::Measure;
use tree::pair::Pair;
use tree::tree::Tree;

/// A tree of any elements and totals.
#[derive(Drop)]
pub struct Holder<'a, E, T> {
    pub tree: Tree<'a, E, T>,
}

/// A tree that was lent, under two measures side by side.
#[derive(Drop)]
pub struct Both<'t, 'a, E: Copy, A: Measure<E>, B: Measure<E>> {
    pub tree: &'t mut Tree<'a, E, Pair<A, B>>,
}
