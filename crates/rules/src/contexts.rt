//! What an item's level depends on: the contexts on both sides of it.
ghost use Rattle.rules.specs.Claims.{IsLevel};
ghost use Rattle.rules.specs.Contexts.{
  after as left_after,
  before as right_before,
  end as right_end,
  first_of,
  level_at,
  loose as loose_class,
  number as number_class,
  number_kind,
  number_side,
  between as class_between,
  settled as settled_class,
  start as left_start,
  terminated as kind_terminated,
};
ghost use Rattle.rules.specs.Rules.{I};
ghost use Rattle.std.specs.Prelude.{◌≡◌};

use crate::classes::{Class, Side, Strong};

/// What the item before is: strong, a number, a terminator, a terminator joined to a European number, or neutral.
#[derive(Clone, Copy, PartialEq, Eq)]
pub enum Kind {
    Strong,
    European,
    Arabic,
    Terminator,
    Joined,
    Neutral,
}

/// The last strong class, the direction of the last strong item or number, and the kind of the item before.
#[derive(Clone, Copy, PartialEq, Eq)]
pub struct Left {
    pub strong: Strong,
    pub side: Side,
    pub kind: Kind,
}

/// What the next item is.
#[derive(Clone, Copy, PartialEq, Eq)]
pub enum Next {
    European,
    Arabic,
    Other,
}

/// The first strong item or number that follows; Arabic letters and numbers count as R.
#[derive(Clone, Copy, PartialEq, Eq)]
pub enum First {
    L,
    R,
    European,
}

/// What follows the last item of a paragraph in this direction.
impl From<Side> for First {
    ghost from_gives = { λ side first. first ≡ first_of side };

    fn from(side: Side) -> First {
        match side {
            Side::L => First::L,
            Side::R => First::R,
        }
    }
}

/// The next item, whether skipping terminators and marks leads to a European number, and the first strong item or number.
#[derive(Clone, Copy, PartialEq, Eq)]
pub struct Right {
    pub next: Next,
    pub leads: bool,
    pub first: First,
}

/// The direction of a European number after a strong class.
fn side_of_number(strong: Strong) -> Side
    ensures { result ≡ number_side strong }
{
    match strong {
        Strong::L => Side::L,
        _ => Side::R,
    }
}

/// The kind of a European number after a strong class.
fn kind_of_number(strong: Strong) -> Kind
    ensures { result ≡ number_kind strong }
{
    match strong {
        Strong::AL => Kind::Arabic,
        _ => Kind::European,
    }
}

/// The kind of a terminator after an item of this kind.
fn terminated(kind: Kind) -> Kind
    ensures { result ≡ kind_terminated kind }
{
    match kind {
        Kind::European | Kind::Joined => Kind::Joined,
        _ => Kind::Terminator,
    }
}

impl Left {
    /// The left context of a paragraph's first item.
    pub fn start(base: Side) -> Left
        ensures { result ≡ left_start base }
    {
        Left {
            strong: Strong::from(base),
            side: base,
            kind: Kind::Strong,
        }
    }

    /// The left context after one item more.
    pub fn after(self, class: Class) -> Left
        ensures { result ≡ left_after self class }
    {
        let Left { strong, side, kind } = self;
        match class {
            Class::L => Left {
                strong: Strong::L,
                side: Side::L,
                kind: Kind::Strong,
            },
            Class::R => Left {
                strong: Strong::R,
                side: Side::R,
                kind: Kind::Strong,
            },
            Class::AL => Left {
                strong: Strong::AL,
                side: Side::R,
                kind: Kind::Strong,
            },
            Class::EN => Left {
                strong,
                side: side_of_number(strong),
                kind: kind_of_number(strong),
            },
            Class::AN => Left {
                strong,
                side: Side::R,
                kind: Kind::Arabic,
            },
            Class::ET => Left {
                strong,
                side,
                kind: terminated(kind),
            },
            Class::NSM => self,
            Class::ES | Class::CS | Class::S | Class::WS | Class::ON => Left {
                strong,
                side,
                kind: Kind::Neutral,
            },
        }
    }
}

impl Right {
    /// The right context of a paragraph's last item.
    pub fn end(base: Side) -> Right
        ensures { result ≡ right_end base }
    {
        Right {
            next: Next::Other,
            leads: false,
            first: First::from(base),
        }
    }

    /// The right context before one item more.
    pub fn before(self, class: Class) -> Right
        ensures { result ≡ right_before class self }
    {
        Right {
            next: match class {
                Class::EN => Next::European,
                Class::AN => Next::Arabic,
                _ => Next::Other,
            },
            leads: match class {
                Class::ET | Class::NSM => self.leads,
                Class::EN => true,
                _ => false,
            },
            first: match class {
                Class::L => First::L,
                Class::R | Class::AL | Class::AN => First::R,
                Class::EN => First::European,
                _ => self.first,
            },
        }
    }
}

/// The class, after the rules, of a European number.
fn number(strong: Strong) -> Class
    ensures { result ≡ number_class strong }
{
    match strong {
        Strong::L => Class::L,
        Strong::R => Class::EN,
        Strong::AL => Class::AN,
    }
}

/// The class of an item that stays neutral up to N1: both sides' if they agree, else the base direction's.
fn between(base: Side, left: Left, right: Right) -> Class
    ensures { result ≡ class_between base left right }
{
    let facing = match right.first {
        First::L => Side::L,
        First::R => Side::R,
        First::European => side_of_number(left.strong),
    };
    let side = if left.side == facing { facing } else { base };
    Class::from(side)
}

/// The class of a terminator with no European number before it.
fn loose(strong: Strong, leads: bool, neutral: Class) -> Class
    ensures { result ≡ loose_class strong leads neutral }
{
    match (strong, leads) {
        (Strong::L, true) => Class::L,
        (Strong::R, true) => Class::EN,
        _ => neutral,
    }
}

/// The class of an item after the rules.
fn settled(base: Side, left: Left, class: Class, right: Right) -> Class
    ensures { result ≡ settled_class base left class right }
{
    let neutral = between(base, left, right);
    match class {
        Class::L => Class::L,
        Class::R | Class::AL => Class::R,
        Class::EN => number(left.strong),
        Class::AN => Class::AN,
        Class::ES => match (left.kind, right.next) {
            (Kind::European, Next::European) => number(left.strong),
            _ => neutral,
        },
        Class::CS => match (left.kind, right.next, left.strong) {
            (Kind::European, Next::European, _) => number(left.strong),
            (Kind::Arabic, Next::Arabic, _) => Class::AN,
            (Kind::Arabic, Next::European, Strong::AL) => Class::AN,
            _ => neutral,
        },
        Class::ET => match left.kind {
            Kind::European | Kind::Joined => number(left.strong),
            _ => loose(left.strong, right.leads, neutral),
        },
        Class::NSM => match left.kind {
            Kind::Strong => Class::from(side_of_number(left.strong)),
            Kind::European | Kind::Joined => number(left.strong),
            Kind::Arabic => Class::AN,
            Kind::Terminator => loose(left.strong, right.leads, neutral),
            Kind::Neutral => neutral,
        },
        Class::S | Class::WS | Class::ON => neutral,
    }
}

/// The level of an item by I1 and I2, from its class after the rules before them.
fn implicit_level(base: Side, class: Class) -> u8
    ensures { result ≡ I base class }
{
    match (base, class) {
        (Side::L, Class::L) => 0,
        (_, Class::R) => 1,
        _ => 2,
    }
}

/// The level of an item with these contexts: the rules' level, in every paragraph in which it has them.
pub fn level(base: Side, left: Left, class: Class, right: Right) -> u8
    ensures is { result ≡ level_at base left class right }
    ensures rules { IsLevel base left class right result }
{
    implicit_level(base, settled(base, left, class, right))
}
