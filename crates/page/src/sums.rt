//! The lines and hits of many entries.

ghost use Rattle.page.specs.Sums.{page_ops, page_laws};

use crate::entry::Entry;
use tree::measure::Measure;

/// How many lines and hits some entries have, each held at 4,294,967,295; it weighs its lines.
#[derive(Clone, Copy)]
pub struct PageSums {
    pub lines: u32,
    pub hits: u32,
}

impl Measure<Entry> for PageSums {
    ghost ops = { page_ops };

    ghost laws = { page_laws };

    fn unit() -> PageSums {
        PageSums { lines: 0, hits: 0 }
    }

    fn of(element: Entry) -> PageSums {
        PageSums {
            lines: u32::from(element.lines),
            hits: u32::from(element.hits),
        }
    }

    fn join(self, other: PageSums) -> PageSums {
        PageSums {
            lines: self.lines.saturating_add(other.lines),
            hits: self.hits.saturating_add(other.hits),
        }
    }

    fn weight(self) -> u32 {
        self.lines
    }
}
