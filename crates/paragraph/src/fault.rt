//! Why a paragraph refuses a call.

ghost use Rattle.std.specs.Prelude.{◌≡◌};
ghost use Rattle.paragraph.specs.Faults.{number as number_of, position as position_of};
ghost use Rattle.paragraph.specs.declared.fault.ParagraphFault.TheVariants.{Tree};

use tree::fault::Fault;

/// A refusal; the call that got it left everything as it was.
#[derive(Clone, Copy)]
pub enum ParagraphFault {
    /// No such place.
    Place,
    /// Fewer items follow the place than are to be removed.
    Removed,
    /// The first new item that is wider than two columns, by its position.
    Wide(usize),
    /// The list for the order is too short.
    List,
    /// The buffer for the levels is too short.
    Scratch,
    /// The tree's refusal.
    Tree(Fault),
}

impl From<Fault> for ParagraphFault {
    ghost from_gives = { λ e r. r ≡ Tree e };

    fn from(refused: Fault) -> ParagraphFault {
        ParagraphFault::Tree(refused)
    }
}

impl ParagraphFault {
    // Kept: clients are told a refusal by its number, by this call; nowhere else is it a number.
    /// The number by which the refusal is told.
    pub fn number(self) -> u8
        ensures { result ≡ number_of self }
    {
        match self {
            ParagraphFault::Place => 11,
            ParagraphFault::Removed => 12,
            ParagraphFault::Wide(_) => 13,
            ParagraphFault::List => 15,
            ParagraphFault::Scratch => 16,
            ParagraphFault::Tree(fault) => fault.number(),
        }
    }

    /// The position of the item that was refused, if it was one.
    pub fn position(self) -> Option<usize>
        ensures { result ≡ position_of self }
    {
        match self {
            ParagraphFault::Wide(position) => Some(position),
            _ => None,
        }
    }
}
