//! Two measures of one element type, kept side by side.

ghost use Rattle.tree.specs.Pairs.{pair_ops, pair_laws};

use crate::measure::Measure;

/// The totals of two measures; it weighs as its first.
#[derive(Clone, Copy)]
pub struct Pair<A, B> {
    pub first: A,
    pub second: B,
}

impl<E: Copy, A: Measure<E>, B: Measure<E>> Measure<E> for Pair<A, B> {
    ghost ops = { pair_ops A.Measure.ops B.Measure.ops };

    ghost laws = { pair_laws A.Measure.ops B.Measure.ops A.Measure.laws B.Measure.laws };

    fn unit() -> Pair<A, B> {
        Pair {
            first: A::unit(),
            second: B::unit(),
        }
    }

    fn of(element: E) -> Pair<A, B> {
        Pair {
            first: A::of(element),
            second: B::of(element),
        }
    }

    fn join(self, other: Pair<A, B>) -> Pair<A, B> {
        Pair {
            first: self.first.join(other.first),
            second: self.second.join(other.second),
        }
    }

    fn weight(self) -> u32 {
        self.first.weight()
    }
}
