//! Why a page refuses a call.

ghost use Rattle.std.specs.Prelude.{◌≡◌};
ghost use Rattle.page.specs.Faults.{number as number_of};
ghost use Rattle.page.specs.declared.fault.PageFault.TheVariants.{Tree};

use tree::fault::Fault;

/// A refusal; the call that got it left everything as it was.
#[derive(Clone, Copy)]
pub enum PageFault {
    /// An entry takes 1 to 65,535 lines.
    Lines,
    /// The tree's refusal.
    Tree(Fault),
}

impl From<Fault> for PageFault {
    ghost from_gives = { λ e r. r ≡ Tree e };

    fn from(refused: Fault) -> PageFault {
        PageFault::Tree(refused)
    }
}

impl PageFault {
    // Kept: clients are told a refusal by its number, by this call; nowhere else is it a number.
    /// The number by which the refusal is told.
    pub fn number(self) -> u8
        ensures { result ≡ number_of self }
    {
        match self {
            PageFault::Lines => 31,
            PageFault::Tree(fault) => fault.number(),
        }
    }
}
