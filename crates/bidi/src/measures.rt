//! Columns and contexts as measures of items.

ghost use Rattle.bidi.specs.Laws.{column_laws, context_laws};
ghost use Rattle.bidi.specs.Sums.{column_ops, context_ops};

use crate::columns::Columns;
use crate::contexts::Contexts;
use crate::item::Item;
use crate::joining::{
    join_left, join_right, join_strong, left_number, right_number, strong_number,
};
use tree::measure::Measure;

impl Measure<Item> for Columns {
    ghost ops = { column_ops };

    ghost laws = { column_laws };

    fn unit() -> Columns {
        Columns { width: 0 }
    }

    fn of(element: Item) -> Columns {
        Columns {
            width: u32::from(element.width),
        }
    }

    fn join(self, other: Columns) -> Columns {
        Columns {
            width: self.width.saturating_add(other.width),
        }
    }

    fn weight(self) -> u32 {
        self.width
    }
}

impl Measure<Item> for Contexts {
    ghost ops = { context_ops };

    ghost laws = { context_laws };

    fn unit() -> Contexts {
        Contexts {
            left: 0,
            right: 0,
            strong: 0,
            count: 0,
        }
    }

    fn of(element: Item) -> Contexts {
        Contexts {
            left: left_number(element.class),
            right: right_number(element.class),
            strong: strong_number(element.class),
            count: 1,
        }
    }

    fn join(self, other: Contexts) -> Contexts {
        Contexts {
            left: join_left(self.left, other.left),
            right: join_right(self.right, other.right),
            strong: join_strong(self.strong, other.strong),
            count: self.count.saturating_add(other.count),
        }
    }

    fn weight(self) -> u32 {
        self.count
    }
}
