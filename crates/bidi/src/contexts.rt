//! What a part of a paragraph does to the contexts that come to it.

ghost use Rattle.bidi.specs.Claims.{IsBase, IsLeftBehind, IsRightBefore, JoinsActInTurn, left_behind, right_before};
ghost use Rattle.std.specs.Prelude.{◌≡◌};

use crate::actions::{after_part, before_part, strong_at};
use rules::{Direction, Left, Right, Side};

/// A part as three small numbers, each 0 for a part that changes nothing, and its count of items, held at 4,294,967,295.
///
/// `left` says which left context leaves the part for each that enters it, and `right` the same from the right.
/// Each has a field of two bits, another of two bits, and the rest. `strong` is the part's first strong class.
// Kept: numbers, since the fields are public and take any byte, so enums would ask more of whoever makes a part; joined by `match` they also took longer, a replaced item by 28 percent.
#[derive(Clone, Copy)]
pub struct Contexts {
    pub left: u8,
    pub right: u8,
    pub strong: u8,
    pub count: u32,
}

impl Contexts {
    /// The left context behind this part, where `left` is the one before it.
    pub fn after(self, left: Left) -> Left
        ensures is { result ≡ left_behind self left }
        ensures items { IsLeftBehind self left result }
    {
        after_part(self.left, left)
    }

    /// The right context before this part, where `right` is the one behind it.
    pub fn before(self, right: Right) -> Right
        ensures is { result ≡ right_before self right }
        ensures items { IsRightBefore self right result }
    {
        before_part(self.right, right)
    }

    /// The base direction of a paragraph that is this part.
    pub fn base(self, direction: Direction) -> Side
        ensures { IsBase self direction result }
    {
        direction.base(strong_at(self.strong))
    }
}

/// A joining acts as the one part after the other: left contexts go through the first part first, right contexts through the second.
pub fn joins_act_in_turn()
    ensures { JoinsActInTurn }
{}
