//! What the numbers of a part say, and how they act on a context.

ghost use Rattle.std.specs.Prelude.{◌≡◌};
ghost use Rattle.bidi.specs.Actions.{
  strong_at as strong_in,
  side_at as side_in,
  kind_at as kind_in,
  next_at as next_in,
  leads_at as leads_in,
  first_at as first_in,
  left_at,
  right_at,
  act_side,
  act_kind,
  act_left,
  act_right,
};

use rules::{Class, First, Kind, Left, Next, Right, Side, Strong};

/// What a part does to the side of a left context: nothing, what a European number does, or a side of its own.
#[derive(Clone, Copy)]
pub(crate) enum SideEffect {
    Keep,
    Number,
    To(Side),
}

/// What a part does to the kind of a left context: nothing, a kind of its own, what a European number does,
/// what a terminator does, or what a European number and then a terminator do.
#[derive(Clone, Copy)]
pub(crate) enum KindEffect {
    Keep,
    To(Kind),
    Number,
    Terminator,
    NumberTerminator,
}

/// What a part does to a left context; `None` keeps.
#[derive(Clone, Copy)]
pub(crate) struct LeftAction {
    pub(crate) strong: Option<Strong>,
    pub(crate) side: SideEffect,
    pub(crate) kind: KindEffect,
}

/// What a part does to a right context; `None` keeps.
#[derive(Clone, Copy)]
pub(crate) struct RightAction {
    pub(crate) next: Option<Next>,
    pub(crate) leads: Option<bool>,
    pub(crate) first: Option<First>,
}

// Kept: numbers, read here and in the five functions below, since a part holds them, as said at `Contexts`.
/// The first strong class that a number tells; 0 tells none.
pub(crate) fn strong_at(n: u8) -> Option<Strong>
    ensures { result ≡ strong_in n }
{
    match n {
        0 => None,
        1 => Some(Strong::L),
        2 => Some(Strong::R),
        _ => Some(Strong::AL),
    }
}

fn side_at(n: u8) -> SideEffect
    ensures { result ≡ side_in n }
{
    match n {
        0 => SideEffect::Keep,
        1 => SideEffect::Number,
        2 => SideEffect::To(Side::L),
        _ => SideEffect::To(Side::R),
    }
}

fn kind_at(n: u8) -> KindEffect
    ensures { result ≡ kind_in n }
{
    match n {
        0 => KindEffect::Keep,
        1 => KindEffect::To(Kind::Strong),
        2 => KindEffect::To(Kind::European),
        3 => KindEffect::To(Kind::Arabic),
        4 => KindEffect::To(Kind::Terminator),
        5 => KindEffect::To(Kind::Joined),
        6 => KindEffect::To(Kind::Neutral),
        7 => KindEffect::Number,
        8 => KindEffect::Terminator,
        _ => KindEffect::NumberTerminator,
    }
}

fn next_at(n: u8) -> Option<Next>
    ensures { result ≡ next_in n }
{
    match n {
        0 => None,
        1 => Some(Next::European),
        2 => Some(Next::Arabic),
        _ => Some(Next::Other),
    }
}

fn leads_at(n: u8) -> Option<bool>
    ensures { result ≡ leads_in n }
{
    match n {
        0 => None,
        1 => Some(true),
        _ => Some(false),
    }
}

fn first_at(n: u8) -> Option<First>
    ensures { result ≡ first_in n }
{
    match n {
        0 => None,
        1 => Some(First::L),
        2 => Some(First::R),
        _ => Some(First::European),
    }
}

fn left_action(n: u8) -> LeftAction
    ensures { result ≡ left_at n }
{
    LeftAction {
        strong: strong_at(n % 4),
        side: side_at(n / 4 % 4),
        kind: kind_at(n / 16),
    }
}

fn right_action(n: u8) -> RightAction
    ensures { result ≡ right_at n }
{
    RightAction {
        next: next_at(n % 4),
        leads: leads_at(n / 4 % 4),
        first: first_at(n / 16),
    }
}

fn side_after(effect: SideEffect, left: Left) -> Side
    ensures { result ≡ act_side effect left }
{
    match effect {
        SideEffect::Keep => left.side,
        SideEffect::Number => left.after(Class::EN).side,
        SideEffect::To(side) => side,
    }
}

fn kind_after(effect: KindEffect, left: Left) -> Kind
    ensures { result ≡ act_kind effect left }
{
    match effect {
        KindEffect::Keep => left.kind,
        KindEffect::To(kind) => kind,
        KindEffect::Number => left.after(Class::EN).kind,
        KindEffect::Terminator => left.after(Class::ET).kind,
        KindEffect::NumberTerminator => left.after(Class::EN).after(Class::ET).kind,
    }
}

/// The left context behind a part with this action.
pub(crate) fn after_part(action: u8, left: Left) -> Left
    ensures { result ≡ act_left (left_at action) left }
{
    let action = left_action(action);
    Left {
        strong: action.strong.unwrap_or(left.strong),
        side: side_after(action.side, left),
        kind: kind_after(action.kind, left),
    }
}

/// The right context before a part with this action.
pub(crate) fn before_part(action: u8, right: Right) -> Right
    ensures { result ≡ act_right (right_at action) right }
{
    let action = right_action(action);
    Right {
        next: action.next.unwrap_or(right.next),
        leads: action.leads.unwrap_or(right.leads),
        first: action.first.unwrap_or(right.first),
    }
}
