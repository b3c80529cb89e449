//! An entry of a page.

ghost use Rattle.std.specs.Prelude.{◌≤◌};

/// A found entry: the key under which the archive holds it, the lines that it takes on the screen, and its hits.
#[derive(Clone, Copy)]
pub struct Entry {
    pub key: u32,
    pub lines: u16,
    pub hits: u16,
    ghost shown: { (1 ≤ lines) × (lines ≤ 65535) × (hits ≤ 65535) },
}
