//! Why a call over slices is refused.

/// A refusal; the call that got it left everything as it was.
#[derive(Clone, Copy, PartialEq, Eq)]
pub enum Fault {
    /// A buffer of the caller is too short.
    Short,
    /// No such place.
    Place,
    /// A level above 2.
    Level,
}
