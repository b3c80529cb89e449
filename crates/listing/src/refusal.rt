//! Why a line is refused.

ghost use Rattle.listing.specs.declared.refusal.Refusal.TheVariants.{Memory};
ghost use Rattle.listing.specs.Text.{reason};
ghost use Rattle.std.specs.Prelude.{◌≡◌, Some};

use std::alloc::{AllocError, AllocFailed};
use std::fmt;

/// A refusal.
#[derive(Clone, Copy, PartialEq, Eq)]
pub enum Refusal {
    /// The line is not two fields parted by a tab, the first of them one letter.
    Fields,
    /// No such direction.
    Direction,
    /// No such item, or half of one, at this position among the items.
    Item(usize),
    /// There is no memory left.
    Memory,
}

impl fmt::Display for Refusal {
    ghost output = { λ refusal. Some (reason refusal) };

    fn fmt<W: fmt::Write>(&self, f: &mut fmt::Formatter<W>) -> fmt::Result {
        match self {
            Refusal::Fields => write!(f, "fields"),
            Refusal::Direction => write!(f, "direction"),
            Refusal::Item(position) => write!(f, "item {position}"),
            Refusal::Memory => write!(f, "memory"),
        }
    }
}

impl From<AllocError> for Refusal {
    ghost from_gives = { λ _ r. r ≡ Memory };

    fn from(_error: AllocError) -> Refusal {
        Refusal::Memory
    }
}

impl<T: Drop> From<AllocFailed<T>> for Refusal {
    ghost from_gives = { λ _ r. r ≡ Memory };

    fn from(_not_stored: AllocFailed<T>) -> Refusal {
        Refusal::Memory
    }
}

// Kept: nothing here converts by it, but it is public, and callers may.
impl From<fmt::Error> for Refusal {
    ghost from_gives = { λ _ r. r ≡ Memory };

    fn from(_error: fmt::Error) -> Refusal {
        Refusal::Memory
    }
}
