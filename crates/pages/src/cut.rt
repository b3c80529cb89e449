//! Cutting bytes at a mark.

ghost use Rattle.std.specs.Prelude.{◌≡◌, ◌==◌, position, take};
ghost use Rattle.std.specs.Option.{option_map};
ghost use Rattle.pages.specs.Lines.{first_at, behind};

/// Where the first such byte is, if there is one.
fn place_of(bytes: &[u8], mark: u8) -> Option<usize>
    ensures { result ≡ position (λ b. b == mark) bytes.now }
{
    bytes.iter().position(|b| *b == mark)
}

/// The bytes before the first such byte, and those behind it, if it is there.
pub(crate) fn cut<'a>(bytes: &'a [u8], mark: u8) -> (&'a [u8], Option<&'a [u8]>)
    ensures before { result.0.now ≡ take (first_at mark bytes.now) bytes.now }
    ensures behind { option_map (λ x. x.now) result.1 ≡ behind mark bytes.now }
{
    match place_of(bytes, mark) {
        Some(n) => (&bytes[0..n], Some(&bytes[n + 1..])),
        None => (bytes, None),
    }
}
