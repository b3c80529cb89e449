//! The visual order of a paragraph's places, from its levels.

ghost use Rattle.std.specs.Prelude.{◌≡◌, ◌+◌, ◌-◌, ◌≤◌, ◌++◌, reverse, length, take, drop};
ghost use Rattle.bidi.specs.Ordering.{at_least, order_answer, order_list};
ghost use Rattle.rules.specs.Order.{at as number_at, highest, places, reordered, reversed};
ghost use Rattle.std.specs.List.{prefix_len};

use crate::fault::Fault;

/// The level at a place, 0 where there is none.
fn level_of(levels: &[u8], place: usize) -> u8
    ensures { result ≡ number_at levels.now place }
{
    levels.get(place).copied().unwrap_or(0)
}

/// How many places from the start of a list are at level k or above, up to the first that is lower.
fn run_len(levels: &[u8], list: &[usize], k: u8) -> usize
    ensures is { result ≡ prefix_len (at_least (number_at levels.now) k) list.now }
    ensures within { result ≤ length list.now }
{
    list.iter()
        .take_while(|place| level_of(levels, **place) >= k)
        .count()
}

// Kept: levels, list and level apart, since the list is lent on to be written at each run.
/// Reverses the unbroken sequence at level k or above that begins at i, and answers where it ends.
fn turn_run(levels: &[u8], list: &mut [usize], i: usize, k: u8) -> usize
    requires { i ≤ length list.old }
    ensures from { i ≤ result }
    ensures within { result ≤ length list.old }
    ensures run { result ≡ i + prefix_len (at_least (number_at levels.now) k) (drop i list.old) }
    ensures list { list.new ≡ take i list.old ++ (reverse (take (result - i) (drop i list.old)) ++ drop result list.old) }
{
    let end = i + run_len(levels, &list[i..], k);
    list[i..end].reverse();
    end
}

/// Reverses each unbroken sequence at level k or above.
fn turn(levels: &[u8], list: &mut [usize], k: u8)
    ensures { list.new ≡ reversed (number_at levels.now) k list.old }
{
    // Kept: tried over `list.split_mut(|place| level_of(levels, *place) < k)`; what the list holds after the loop stayed open.
    let mut i = 0;
    while i < list.len() {
        i = turn_run(levels, list, i, k) + 1;
    }
}

/// The highest level, 0 where there is none.
fn highest_of(levels: &[u8]) -> u8
    ensures { result ≡ highest levels.now }
{
    levels.iter().copied().max().unwrap_or(0)
}

/// From the highest level down to 1, reverses each unbroken sequence at that level or above.
fn turn_all(levels: &[u8], list: &mut [usize])
    ensures { list.new ≡ reordered (number_at levels.now) (highest levels.now) list.old }
{
    for k in (1..=highest_of(levels)).rev() {
        turn(levels, list, k);
    }
}

/// Writes the places from 0 on.
fn count_up(list: &mut [usize])
    ensures { list.new ≡ places 0 (length list.old) }
{
    for (place, slot) in list.iter_mut().enumerate() {
        *slot = place;
    }
}

/// Writes the places of a paragraph with these levels into the caller's list, in visual order.
pub fn order(levels: &[u8], list: &mut [usize]) -> Result<(), Fault>
    ensures answer { result ≡ order_answer levels.now list.old }
    ensures list { list.new ≡ order_list levels.now list.old }
{
    let n = levels.len();
    if n > list.len() {
        return Err(Fault::Short);
    }
    let part = &mut list[..n];
    count_up(part);
    turn_all(levels, part);
    Ok(())
}
