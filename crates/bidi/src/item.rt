//! An item of a paragraph.

ghost use Rattle.std.specs.Prelude.{◌<◌};

use rules::Class;

/// A class and a width in columns.
#[derive(Clone, Copy)]
pub struct Item {
    pub class: Class,
    pub width: u8,
    ghost narrow: { width < 256 },
}
