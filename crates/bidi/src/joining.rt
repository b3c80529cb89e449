//! The numbers of one item, and of two parts side by side, without taking them apart into contexts.

ghost use Rattle.std.specs.Prelude.{◌≡◌, ◌<◌};
ghost use Rattle.bidi.specs.Joins.{
  side_join,
  kind_join,
  picked,
  left_of,
  right_of,
  strong_of,
  left_join,
  right_join,
  strong_join,
};

use rules::Class;

// Kept: numbers for what an item does, here and below, since a part holds them, as said at `Contexts`.
/// The action of one item on left contexts: its strong class, 4 times its side, 16 times its kind.
pub(crate) fn left_number(class: Class) -> u8
    ensures { result ≡ left_of class }
{
    match class {
        Class::L => 1 + 4 * 2 + 16,
        Class::R => 2 + 4 * 3 + 16,
        Class::AL => 3 + 4 * 3 + 16,
        Class::EN => 4 + 16 * 7,
        Class::ET => 16 * 8,
        Class::AN => 4 * 3 + 16 * 3,
        Class::NSM => 0,
        Class::ES | Class::CS | Class::S | Class::WS | Class::ON => 16 * 6,
    }
}

/// The action of one item on right contexts: what it is, 4 times whether it leads to a number, 16 times its direction.
pub(crate) fn right_number(class: Class) -> u8
    ensures { result ≡ right_of class }
{
    match class {
        Class::L => 3 + 4 * 2 + 16,
        Class::R | Class::AL => 3 + 4 * 2 + 16 * 2,
        Class::EN => 1 + 4 + 16 * 3,
        Class::AN => 2 + 4 * 2 + 16 * 2,
        Class::ET | Class::NSM => 3,
        Class::ES | Class::CS | Class::S | Class::WS | Class::ON => 3 + 4 * 2,
    }
}

/// The strong class of one item.
pub(crate) fn strong_number(class: Class) -> u8
    ensures { result ≡ strong_of class }
{
    match class {
        Class::L => 1,
        Class::R => 2,
        Class::AL => 3,
        _ => 0,
    }
}

/// The k-th of the sixteen small numbers that one number holds.
fn pick(menu: u64, k: u8) -> u8
    requires { k < 16 }
    ensures is { result ≡ picked menu k }
    ensures within { result < 16 }
{
    ((menu >> u32::from(4 * k)) & 15) as u8
}

/// The side after two parts, where `strong` is the first one's strong class: the first one's, that of a number, or the second one's.
fn join_side(strong: u8, a: u8, b: u8) -> u8
    requires { (strong < 4) × ((a < 4) × (b < 4)) }
    ensures is { result ≡ side_join strong a b }
    ensures within { result < 16 }
{
    let number = pick(0x3321, strong);
    pick(u64::from(a) + 16 * u64::from(number) + 0x3200, b)
}

/// The kind after two parts, where `strong` is the first one's strong class: the first one's, the second one's own,
/// that of a number, of a terminator after the first one's, or of a number and then a terminator.
fn join_kind(strong: u8, a: u8, b: u8) -> u8
    requires { (strong < 4) × ((a < 16) × (b < 16)) }
    ensures is { result ≡ kind_join strong a b }
    ensures within { result < 16 }
{
    let number = pick(0x3227, strong);
    let terminator = pick(0x98_9454_4548, a);
    let both = pick(0x4559, strong);
    pick(
        u64::from(a)
            + 0x0654_3210
            + 0x1000_0000 * u64::from(number)
            + 0x1_0000_0000 * u64::from(terminator)
            + 0x10_0000_0000 * u64::from(both),
        b,
    )
}

/// The action of two parts on left contexts. A part with a strong class leaves nothing of what came before it.
pub(crate) fn join_left(a: u8, b: u8) -> u8
    ensures { result ≡ left_join a b }
{
    let side = join_side(a % 4, a / 4 % 4, b / 4 % 4);
    let kind = join_kind(a % 4, a / 16, b / 16);
    let both = a % 4 + 4 * (side % 4) + 16 * kind;
    if b % 4 == 0 { both } else { b }
}

/// The action of two parts on right contexts: the fields of the first, and the second's where the first keeps.
pub(crate) fn join_right(a: u8, b: u8) -> u8
    ensures { result ≡ right_join a b }
{
    let mask = ((a | (a >> 1)) & 21) * 3;
    (a & mask) | (b & (63 - mask))
}

/// The first strong class of two parts.
pub(crate) fn join_strong(a: u8, b: u8) -> u8
    ensures { result ≡ strong_join a b }
{
    if a == 0 { b } else { a }
}
