//! The classes of items, and the direction of a paragraph.
ghost use Rattle.rules.specs.Classes.{letter};
ghost use Rattle.rules.specs.Contexts.{strong_of};
ghost use Rattle.rules.specs.Rules.{P2, base_direction, base_level};
ghost use Rattle.std.specs.Prelude.{◌≡◌, List};

/// The bidirectional class of an item, under the standard's short name.
#[derive(Clone, Copy)]
pub enum Class {
    /// Left-to-right letter.
    L,
    /// Right-to-left letter.
    R,
    /// Right-to-left Arabic letter.
    AL,
    /// European number.
    EN,
    /// European number separator.
    ES,
    /// European number terminator.
    ET,
    /// Arabic number.
    AN,
    /// Common number separator.
    CS,
    /// Nonspacing mark.
    NSM,
    /// Segment separator.
    S,
    /// Whitespace.
    WS,
    /// Other neutral.
    ON,
}

/// A strong class.
#[derive(Clone, Copy, PartialEq, Eq)]
pub enum Strong {
    L,
    R,
    AL,
}

/// One of the two directions: left-to-right or right-to-left.
#[derive(Clone, Copy, PartialEq, Eq)]
pub enum Side {
    L,
    R,
}

// Kept: not `Option<Side>`, since it is public, and `None` would not say that the first strong item decides.
/// The direction that a paragraph is given: one of the two, or that of its first strong item.
#[derive(Clone, Copy, PartialEq, Eq)]
pub enum Direction {
    Left,
    Right,
    FirstStrong,
}

/// The class of a letter in this direction.
impl From<Side> for Class {
    ghost from_gives = { λ side class. class ≡ letter side };

    fn from(side: Side) -> Class {
        match side {
            Side::L => Class::L,
            Side::R => Class::R,
        }
    }
}

/// The strong class of a letter in this direction.
impl From<Side> for Strong {
    ghost from_gives = { λ side strong. strong ≡ strong_of side };

    fn from(side: Side) -> Strong {
        match side {
            Side::L => Strong::L,
            Side::R => Strong::R,
        }
    }
}

impl Side {
    /// The base level of a paragraph in this direction.
    pub fn level(self) -> u8
        ensures { result ≡ base_level self }
    {
        match self {
            Side::L => 0,
            Side::R => 1,
        }
    }
}

impl Direction {
    /// The base direction of every paragraph whose first strong class is `first`.
    pub fn base(self, first: Option<Strong>) -> Side
        ensures { (cs : List Class) → first ≡ P2 cs → result ≡ base_direction self cs }
    {
        match self {
            Direction::Left => Side::L,
            Direction::Right => Side::R,
            Direction::FirstStrong => match first {
                Some(Strong::R) => Side::R,
                Some(Strong::AL) => Side::R,
                _ => Side::L,
            },
        }
    }
}
