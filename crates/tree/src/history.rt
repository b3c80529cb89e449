//! Whole histories: any list of changes to an empty tree, then any list of questions about it.

ghost use Rattle.std.specs.Prelude.{◌≡◌, ◌≤◌, map, length, take, drop, OnOk};
ghost use Rattle.tree.specs.Plain.{numbered, Untouched};
ghost use Rattle.tree.specs.Trees.{elements_of, capacity_of, depth_in, TotalsRight};
ghost use Rattle.tree.specs.History.{change_answer, after_change, after_all, answers_all, question_answer, History};
ghost use Rattle.tree.specs.Recordings.{short_of, SameRecording, SpareEntriesStay, ListsUntouched};

use crate::fault::Fault;
use crate::measure::Measure;
use crate::request::{Change, Question, Told};
use crate::tree::Tree;

/// Why a history was not run: a list for its answers is too short.
#[derive(Clone, Copy, PartialEq, Eq, Debug)]
pub enum Unrecorded {
    /// The list for what changes were answered.
    Outcomes,
    /// The list for what questions were told.
    Answers,
}

// Kept: calls and answers in lists of their own, since callers lend both, and one list of calls can be run more than once.
/// Calls to be carried out, the changes before the questions, and the lists to which the answer to each is written.
#[derive(Drop)]
pub struct Recording<'c, 'a, C, O, Q, A> {
    pub changes: &'c [C],
    pub outcomes: &'a mut [O],
    pub questions: &'c [Q],
    pub answers: &'a mut [A],
}

impl<C, O, Q, A> Recording<'_, '_, C, O, Q, A> {
    /// Refuses a list that is too short for its answers, that of the changes first.
    pub fn fits(&self) -> Result<(), Unrecorded>
        ensures { result ≡ short_of self.now }
    {
        if self.outcomes.len() < self.changes.len() {
            return Err(Unrecorded::Outcomes);
        }
        if self.answers.len() < self.questions.len() {
            return Err(Unrecorded::Answers);
        }
        Ok(())
    }
}

/// The recording of a history of a tree.
pub type TreeRecording<'c, 'a, E, T> = Recording<
    'c,
    'a,
    Change<E>,
    Result<Option<E>, Fault>,
    Question,
    Result<Told<E, T>, Fault>,
>;

impl<E: Copy, T: Measure<E>> Tree<'_, E, T> {
    /// Carries out a change; a removal answers the element.
    pub fn change(&mut self, change: Change<E>) -> Result<Option<E>, Fault>
        ensures answer { numbered result ≡ change_answer (capacity_of self.old) (elements_of self.old) change }
        ensures elements { elements_of self.new ≡ after_change (capacity_of self.old) (elements_of self.old) change }
        ensures refused { Untouched result self.old self.new }
        ensures totals { TotalsRight T.ops self.old → TotalsRight T.ops self.new }
        ensures capacity { capacity_of self.new ≡ capacity_of self.old }
    {
        match change {
            Change::Insert { place, element } => {
                self.insert(place, element)?;
                Ok(None)
            }
            Change::Remove { place } => {
                let element = self.remove(place)?;
                Ok(Some(element))
            }
        }
    }

    /// Answers a question.
    pub fn ask(&self, question: Question) -> Result<Told<E, T>, Fault>
        ensures { TotalsRight T.ops self.now → numbered result ≡ question_answer T.ops (elements_of self.now) (depth_in self.now) question }
    {
        match question {
            Question::Read { place } => {
                let (element, depth) = self.read(place)?;
                Ok(Told::Element(element, depth))
            }
            Question::Total { first, end } => {
                let total = self.total(first, end)?;
                Ok(Told::Sum(total))
            }
        }
    }

    /// Empties the tree, carries out the changes, then answers the questions. What each was answered is written to the two lists, whose further entries stay.
    pub fn history(&mut self, recording: &mut TreeRecording<'_, '_, E, T>) -> Result<(), Unrecorded>
        ensures answer { result ≡ short_of recording.old }
        ensures same { SameRecording recording.old recording.new }
        ensures law { OnOk result (History T.ops (capacity_of self.old) recording.old.changes.now recording.new.outcomes.now recording.old.questions.now recording.new.answers.now self.new) }
        ensures spare { OnOk result (SpareEntriesStay recording.old recording.new) }
        ensures refused { Untouched result self.old self.new × ListsUntouched result recording.old recording.new }
    {
        recording.fits()?;
        self.clear();
        self.change_all(recording.changes, recording.outcomes);
        self.ask_all(recording.questions, recording.answers);
        Ok(())
    }

    /// Carries out changes, one after the other, and writes what each was answered.
    fn change_all(&mut self, changes: &[Change<E>], outcomes: &mut [Result<Option<E>, Fault>])
        requires { length changes.now ≤ length outcomes.old }
        ensures elements { elements_of self.new ≡ after_all (capacity_of self.old) (elements_of self.old) changes.now }
        ensures answered { map numbered (take (length changes.now) outcomes.new) ≡ answers_all (capacity_of self.old) (elements_of self.old) changes.now }
        ensures spare { drop (length changes.now) outcomes.new ≡ drop (length changes.now) outcomes.old }
        ensures totals { TotalsRight T.ops self.old → TotalsRight T.ops self.new }
    {
        // Kept: tried over `outcomes.iter_mut().zip(changes)`; what the slots hold after the loop stayed open.
        for (i, change) in changes.iter().enumerate() {
            outcomes[i] = self.change(*change);
        }
    }

    /// Answers questions, one after the other, and writes what each was told.
    fn ask_all(&self, questions: &[Question], answers: &mut [Result<Told<E, T>, Fault>])
        requires { length questions.now ≤ length answers.old }
        ensures told { TotalsRight T.ops self.now → map numbered (take (length questions.now) answers.new) ≡ map (question_answer T.ops (elements_of self.now) (depth_in self.now)) questions.now }
        ensures spare { drop (length questions.now) answers.new ≡ drop (length questions.now) answers.old }
    {
        // Kept: tried over `answers.iter_mut().zip(questions)`; what the slots hold after the loop stayed open.
        for (i, question) in questions.iter().enumerate() {
            answers[i] = self.ask(*question);
        }
    }
}
