//! Lists of numbers as text.

ghost use Rattle.listing.specs.Text.{spaced_texts};
ghost use Rattle.std.specs.Prelude.{◌≡◌, ◌++◌, ℕ, List, Some, string_bytes, OnOk};

use std::alloc::AllocError;
use std::fmt::{Display, Write};

/// Adds numbers, each behind a space, where `written` tells the text of each.
pub(crate) fn add_numbers<N: Display>(text: &mut String, numbers: &[N]) -> Result<(), AllocError>
    ensures { (written : N → List ℕ) → ((n : N) → N.output n ≡ Some (written n)) → OnOk result (string_bytes text.new ≡ string_bytes text.old ++ spaced_texts written numbers.now) }
{
    for number in numbers {
        write!(text, " {number}")?;
    }
    Ok(())
}
