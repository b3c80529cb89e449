//! Reading a line as a call.

ghost use Rattle.std.specs.Prelude.{◌≡◌, [], ◌∷◌, length, MatchResult, ◌≢◌};
ghost use Rattle.std.specs.Option.{option_map};
ghost use Rattle.pages.specs.Calls.{put_of, take_of, find_of, call_in};
ghost use Rattle.pages.specs.Lines.{fields_left};

use crate::call::{Call, Refusal};
use crate::cut::cut;
use crate::number::{number, small};

const TAB: u8 = b'\t';

/// The next field, and what is left behind it.
fn field<'a>(rest: Option<&'a [u8]>) -> Result<(&'a [u8], Option<&'a [u8]>), Refusal>
    ensures { MatchResult result (λ p. fields_left (option_map (λ x. x.now) rest.entry) ≡ p.0.now ∷ fields_left (option_map (λ x. x.now) p.1)) (λ e. (e ≡ Refusal.Command) × (fields_left (option_map (λ x. x.now) rest.entry) ≡ [])) }
{
    let Some(bytes) = rest else {
        return Err(Refusal::Command);
    };
    Ok(cut(bytes, TAB))
}

/// The one field that is left.
fn one<'a>(rest: Option<&'a [u8]>) -> Result<&'a [u8], Refusal>
    ensures { MatchResult result (λ f. fields_left (option_map (λ x. x.now) rest.entry) ≡ f.now ∷ []) (λ e. (e ≡ Refusal.Command) × (length (fields_left (option_map (λ x. x.now) rest.entry)) ≢ 1)) }
{
    let (first, rest) = field(rest)?;
    if rest.is_some() {
        return Err(Refusal::Command);
    }
    Ok(first)
}

/// The four fields that are left.
fn four<'a>(rest: Option<&'a [u8]>) -> Result<(&'a [u8], &'a [u8], &'a [u8], &'a [u8]), Refusal>
    ensures { MatchResult result (λ f. fields_left (option_map (λ x. x.now) rest.entry) ≡ f.0.now ∷ (f.1.now ∷ (f.2.now ∷ (f.3.now ∷ [])))) (λ e. (e ≡ Refusal.Command) × (length (fields_left (option_map (λ x. x.now) rest.entry)) ≢ 4)) }
{
    let (first, rest) = field(rest)?;
    let (second, rest) = field(rest)?;
    let (third, rest) = field(rest)?;
    let fourth = one(rest)?;
    Ok((first, second, third, fourth))
}

/// Reads the fields of `put`.
fn put(rest: Option<&[u8]>) -> Result<Call, Refusal>
    ensures { result ≡ put_of (fields_left (option_map (λ x. x.now) rest.entry)) }
{
    let (place, key, lines, hits) = four(rest)?;
    let place = number(place)?;
    let key = number(key)?;
    let lines = number(lines)?;
    let hits = small(hits)?;
    Ok(Call::Put {
        place,
        key,
        lines,
        hits,
    })
}

/// Reads the field of `take`.
fn take(rest: Option<&[u8]>) -> Result<Call, Refusal>
    ensures { result ≡ take_of (fields_left (option_map (λ x. x.now) rest.entry)) }
{
    let place = number(one(rest)?)?;
    Ok(Call::Take { place })
}

/// Reads the field of `find`.
fn find(rest: Option<&[u8]>) -> Result<Call, Refusal>
    ensures { result ≡ find_of (fields_left (option_map (λ x. x.now) rest.entry)) }
{
    let line = number(one(rest)?)?;
    Ok(Call::Find { line })
}

/// The call that a line asks for.
pub(crate) fn parse(line: &[u8]) -> Result<Call, Refusal>
    ensures { result ≡ call_in line.now }
{
    let (word, rest) = cut(line, TAB);
    // Kept: tried as `match word { b"put" => put(rest), .. }`; at `_` that the word is none of the three stayed open.
    if word == b"put".as_slice() {
        put(rest)
    } else if word == b"take".as_slice() {
        take(rest)
    } else if word == b"find".as_slice() {
        find(rest)
    } else {
        Err(Refusal::Command)
    }
}
