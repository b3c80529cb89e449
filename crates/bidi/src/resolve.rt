//! The levels of a paragraph, in a pass from the right and one from the left.

ghost use Rattle.bidi.specs.Items.{classes};
ghost use Rattle.bidi.specs.Resolving.{behind, resolve_answer, resolve_buffer};
ghost use Rattle.bidi.specs.Sums.{context_ops};
ghost use Rattle.rules.specs.Rules.{levels as rule_levels};
ghost use Rattle.tree.specs.Measures.{total_of};
ghost use Rattle.std.specs.Prelude.{◌≡◌, length};

use crate::actions::{before_part, strong_at};
use crate::fault::Fault;
use crate::item::Item;
use crate::joining::{join_right, join_strong, right_number, strong_number};
use rules::contexts::level;
use rules::{Direction, Left, Right, Side};

/// From the right: at each item, what the items behind it do to right contexts. Answers the first strong class.
fn gather(items: &[Item], bytes: &mut [u8]) -> u8
    requires { length items.now ≡ length bytes.old }
    ensures strong { result ≡ (total_of context_ops items.now).strong }
    ensures bytes { bytes.new ≡ behind items.now }
{
    let mut right: u8 = 0;
    let mut strong: u8 = 0;
    // Kept: tried over `bytes.iter_mut().rev()` in a `zip`; what the bytes hold after the loop stayed open.
    for (place, item) in items.iter().enumerate().rev() {
        bytes[place] = right;
        right = join_right(right_number(item.class), right);
        strong = join_strong(strong_number(item.class), strong);
    }
    strong
}

/// From the left: the level of each item, from the contexts on both sides of it.
fn settle(base: Side, items: &[Item], bytes: &mut [u8])
    requires { bytes.old ≡ behind items.now }
    ensures { bytes.new ≡ rule_levels base (classes items.now) }
{
    let end = Right::end(base);
    let mut left = Left::start(base);
    // Kept: tried over `bytes.iter_mut().zip(items)`; what the bytes hold after the loop stayed open.
    for (place, item) in items.iter().enumerate() {
        bytes[place] = level(base, left, item.class, before_part(bytes[place], end));
        left = left.after(item.class);
    }
}

/// Writes the level of each item into the caller's buffer, a byte an item, and answers the base direction.
pub fn resolve(direction: Direction, items: &[Item], levels: &mut [u8]) -> Result<Side, Fault>
    ensures answer { result ≡ resolve_answer direction items.now levels.old }
    ensures levels { levels.new ≡ resolve_buffer direction items.now levels.old }
{
    let n = items.len();
    if n > levels.len() {
        return Err(Fault::Short);
    }
    let part = &mut levels[..n];
    let strong = gather(items, part);
    let base = direction.base(strong_at(strong));
    settle(base, items, part);
    Ok(base)
}
