//! Making an entry from numbers that may be out of range.

ghost use Rattle.std.specs.Prelude.{◌≡◌, IfOk};
ghost use Rattle.page.specs.Entries.{entry_answer};

use crate::entry::Entry;
use crate::fault::PageFault;

impl Entry {
    /// The entry of a key, lines and hits.
    pub fn new(key: u32, lines: u32, hits: u16) -> Result<Entry, PageFault>
        ensures answer { result ≡ entry_answer key lines hits }
        ensures fields { IfOk result (λ e. (e.key ≡ key) × (e.lines ≡ lines) × (e.hits ≡ hits)) }
    {
        if lines < 1 {
            return Err(PageFault::Lines);
        }
        let Ok(lines) = u16::try_from(lines) else {
            return Err(PageFault::Lines);
        };
        Ok(Entry { key, lines, hits })
    }
}
