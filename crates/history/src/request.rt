//! Calls on a paragraph as values, so that a list of them can be recorded and run.

use paragraph::fault::ParagraphFault;
use paragraph::outcome::Outcome;
use rules::Direction;
use tree::history::Recording;

// Kept: calls as values and no closures, here and below, since the law speaks of each recorded call.
/// A call that changes a paragraph.
#[derive(Clone, Copy)]
pub enum Change {
    // Kept: items by a stretch of the recorded ones: as a slice of its own each change would hold a reference, and the law's definitions would read behind it.
    /// Replace items from a place on by those of the recorded items from `first` up to and without `end`.
    Edit {
        place: usize,
        removed: usize,
        first: usize,
        end: usize,
    },
    /// Set the direction.
    Turn {
        direction: Direction,
    },
}

/// A call that only asks.
#[derive(Clone, Copy)]
pub enum Question {
    /// The level of an item, and its depth.
    Level { place: usize },
    /// The column of an item, and its width.
    Column { place: usize },
}

/// What a question was told.
#[derive(Clone, Copy)]
pub enum Told {
    /// A level, and the depth of the item's row.
    Level(u8, u16),
    /// A column, and the item's width.
    Column(u32, u8),
}

/// The recording of a history of a paragraph.
pub type ParagraphRecording<'c, 'a> = Recording<
    'c,
    'a,
    Change,
    Result<Outcome, ParagraphFault>,
    Question,
    Result<Told, ParagraphFault>,
>;
