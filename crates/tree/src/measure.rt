//! What a tree needs to know of its totals.

ghost use Rattle.std.specs.Prelude.{◌≡◌, ℕ};
ghost use Rattle.tree.specs.Measures.{Operations, Laws};

/// A total of elements of one type: it begins at a unit, is had of one element, and of two totals side by side.
/// Joining is associative, the unit changes nothing, and the weight of a joining is the sum of both weights.
pub trait Measure<E>: Copy {
    ghost ops: { Operations E Self };

    ghost laws: { Laws ops };

    /// The total of no elements.
    fn unit() -> Self
        ensures { result ≡ ops.unit };

    /// The total of one element.
    fn of(element: E) -> Self
        ensures { result ≡ ops.of element };

    /// The total of what `self` sums up, followed by what `other` sums up.
    fn join(self, other: Self) -> Self
        ensures { result ≡ ops.join self other };

    /// By which a place is sought.
    fn weight(self) -> u32
        ensures { result ≡ ops.weight self };
}
