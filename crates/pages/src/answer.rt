//! What a page answers to a call.

use page::entry::Entry;

/// The answer to a call that was not refused.
#[derive(Clone, Copy)]
pub enum Answer {
    /// An entry was put; so many are there now.
    Put(usize),
    /// The entry that was taken out.
    Taken(Entry),
    /// The entry that shows the line.
    Found(Entry),
}
