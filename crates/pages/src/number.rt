//! Reading numbers.

ghost use Rattle.std.specs.Prelude.{◌≡◌, ◌≤◌, length, Some, None};
ghost use Rattle.pages.specs.Numbers.{read_on, number_in, small_in};

use crate::call::Refusal;

/// The number that up to nine digits write, if each byte is a digit.
fn digits(bytes: &[u8]) -> Option<u32>
    requires { length bytes.now ≤ 9 }
    ensures { result ≡ read_on 0 bytes.now }
{
    // Kept: not `parse`: it reads a `str` and not bytes, and accepts a leading `+`.
    let mut n: u32 = 0;
    for b in bytes {
        if !b.is_ascii_digit() {
            return None;
        }
        n = n * 10 + u32::from(*b - b'0');
    }
    Some(n)
}

/// The number in a field: one to nine digits, the first of them not 0 unless it is the only one.
pub(crate) fn number(field: &[u8]) -> Result<u32, Refusal>
    ensures { result ≡ number_in field.now }
{
    if field.is_empty() || field.len() > 9 {
        return Err(Refusal::Number);
    }
    if field.len() > 1 && field[0] == b'0' {
        return Err(Refusal::Number);
    }
    digits(field).ok_or(Refusal::Number)
}

/// The number in a field, which is at most 65,535.
pub(crate) fn small(field: &[u8]) -> Result<u16, Refusal>
    ensures { result ≡ small_in field.now }
{
    u16::try_from(number(field)?).map_err(|_| Refusal::Number)
}
