//! What a line can ask for, and why it can be refused.

ghost use Rattle.std.specs.Prelude.{◌≡◌};
ghost use Rattle.pages.specs.Calls.{number as number_of};
ghost use Rattle.pages.specs.declared.call.Refusal.TheVariants.{Page};

use page::fault::PageFault;

/// One call of a page.
#[derive(Clone, Copy)]
pub enum Call {
    Put {
        place: u32,
        key: u32,
        lines: u32,
        hits: u16,
    },
    Take {
        place: u32,
    },
    Find {
        line: u32,
    },
}

/// Why a line is refused.
#[derive(Clone, Copy)]
pub enum Refusal {
    /// No such command, or another number of fields than it has.
    Command,
    /// A field is not a number, or too large a one.
    Number,
    /// The page's refusal.
    Page(PageFault),
}

impl From<PageFault> for Refusal {
    ghost from_gives = { λ e r. r ≡ Page e };

    fn from(fault: PageFault) -> Refusal {
        Refusal::Page(fault)
    }
}

impl Refusal {
    // Kept: clients are told a refusal by its number, by this call; nowhere else is it a number.
    /// The number by which the refusal is told.
    pub(crate) fn number(self) -> u8
        ensures { result ≡ number_of self }
    {
        match self {
            Refusal::Command => 21,
            Refusal::Number => 22,
            Refusal::Page(fault) => fault.number(),
        }
    }
}
