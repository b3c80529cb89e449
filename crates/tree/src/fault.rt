//! Why a tree refuses a call.

ghost use Rattle.std.specs.Prelude.{◌≡◌};
ghost use Rattle.tree.specs.Plain.{number as number_of};

/// A refusal; the call that got it left everything as it was.
#[derive(Clone, Copy, PartialEq, Eq, Debug)]
pub enum Fault {
    /// No such place.
    Place,
    /// As many elements are there as the rows can take.
    Full,
    /// No such stretch.
    Stretch,
    /// The elements weigh no more than that.
    Weight,
}

impl Fault {
    // Kept: clients are told a refusal by its number, by this call; nowhere else is it a number.
    /// The number by which the refusal is told.
    pub fn number(self) -> u8
        ensures { result ≡ number_of self }
    {
        match self {
            Fault::Place => 1,
            Fault::Full => 2,
            Fault::Stretch => 3,
            Fault::Weight => 4,
        }
    }
}
