//! Runs: the longest stretches of one level, in which the screen draws.

ghost use Rattle.std.specs.Prelude.{◌<◌};
ghost use Rattle.paragraph.specs.Paragraphs.{levels_in};
ghost use Rattle.paragraph.specs.Runs.{RunAnswer, RunIsUnique};

use crate::fault::ParagraphFault;
use crate::paragraph::Paragraph;
use crate::span::Span;

/// The places from `first` up to and without `end`, which have one level, and no place more.
#[derive(Clone, Copy)]
pub struct Run {
    pub first: usize,
    pub end: usize,
    pub level: u8,
}

/// A place lies in one run.
pub fn runs_are_unique()
    ensures { RunIsUnique }
{}

impl Paragraph<'_, '_> {
    /// The run that holds a place. The next run begins at its end, so a span's runs are told by asking at its first place, then at the end of each run.
    pub fn run(&self, place: usize) -> Result<Run, ParagraphFault>
        ensures { RunAnswer (levels_in self.now) place result }
    {
        if place >= self.count() {
            return Err(ParagraphFault::Place);
        }
        let levels = self.levels();
        let level = levels.at(place);
        let Span { first, end } = levels.stretch(place, |other| other == level);
        Ok(Run { first, end, level })
    }
}
