//! A stretch of a tree replaced by other elements.

ghost use Rattle.std.specs.Prelude.{◌≡◌, ◌+◌, ◌-◌, ◌<◌, ◌≤◌, [], length, set as set_list};
ghost use Rattle.tree.specs.Plain.{numbered, Untouched, spliced, replace_answer, after_replace};
ghost use Rattle.tree.specs.Trees.{elements_of, capacity_of, TotalsRight};

use crate::build::fill_in;
use crate::fault::Fault;
use crate::measure::Measure;
use crate::pool::set_in;
use crate::tree::Tree;

impl<E: Copy, T: Measure<E>> Tree<'_, E, T> {
    /// Puts elements in the place of a stretch.
    pub fn replace(&mut self, first: usize, end: usize, elements: &[E]) -> Result<(), Fault>
        ensures answer { numbered result ≡ replace_answer (capacity_of self.old) (elements_of self.old) first end elements.now }
        ensures elements { elements_of self.new ≡ after_replace (capacity_of self.old) (elements_of self.old) first end elements.now }
        ensures refused { Untouched result self.old self.new }
        ensures totals { TotalsRight T.ops self.old → TotalsRight T.ops self.new }
        ensures capacity { capacity_of self.new ≡ capacity_of self.old }
    {
        let count = self.len();
        if first > end {
            return Err(Fault::Stretch);
        }
        if end > count {
            return Err(Fault::Stretch);
        }
        let kept = count - (end - first);
        if elements.len() > self.capacity() - kept {
            return Err(Fault::Full);
        }
        if kept == 0 {
            self.fill(elements);
            return Ok(());
        }
        self.splice(first, end, elements);
        Ok(())
    }

    /// Drops every element, and builds a tree of others.
    fn fill(&mut self, elements: &[E])
        requires { length elements.now ≤ capacity_of self.old }
        ensures elements { elements_of self.new ≡ elements.now }
        ensures totals { TotalsRight T.ops self.new }
        ensures capacity { capacity_of self.new ≡ capacity_of self.old }
    {
        self.heads = fill_in(self.rows, elements);
    }

    /// Writes elements over those of the stretch, one for one; then takes out what is left of the stretch, or puts in what is left of the elements.
    fn splice(&mut self, first: usize, end: usize, elements: &[E])
        requires ordered { first ≤ end }
        requires within { end ≤ length (elements_of self.old) }
        requires room { length (elements_of self.old) - (end - first) + length elements.now ≤ capacity_of self.old }
        ensures elements { elements_of self.new ≡ spliced (elements_of self.old) first end elements.now }
        ensures totals { TotalsRight T.ops self.old → TotalsRight T.ops self.new }
        ensures capacity { capacity_of self.new ≡ capacity_of self.old }
    {
        let common = elements.len().min(end - first);
        let next = first + common;
        self.set_all(first, &elements[0..common]);
        self.remove_all(next, end);
        self.insert_all(next, &elements[common..]);
    }

    /// Changes the element at a place.
    fn set(&mut self, place: usize, element: E)
        requires { place < length (elements_of self.old) }
        ensures elements { elements_of self.new ≡ set_list (elements_of self.old) place element }
        ensures totals { TotalsRight T.ops self.old → TotalsRight T.ops self.new }
        ensures capacity { capacity_of self.new ≡ capacity_of self.old }
    {
        set_in(self.rows, self.heads, place as u16, element);
    }

    /// Writes elements over those from a place on.
    fn set_all(&mut self, place: usize, elements: &[E])
        requires { place + length elements.now ≤ length (elements_of self.old) }
        ensures elements { elements_of self.new ≡ spliced (elements_of self.old) place (place + length elements.now) elements.now }
        ensures totals { TotalsRight T.ops self.old → TotalsRight T.ops self.new }
        ensures capacity { capacity_of self.new ≡ capacity_of self.old }
    {
        for (i, element) in elements.iter().enumerate() {
            self.set(place + i, *element);
        }
    }

    /// Takes out the elements of a stretch.
    fn remove_all(&mut self, first: usize, end: usize)
        requires ordered { first ≤ end }
        requires within { end ≤ length (elements_of self.old) }
        ensures elements { elements_of self.new ≡ spliced (elements_of self.old) first end [] }
        ensures totals { TotalsRight T.ops self.old → TotalsRight T.ops self.new }
        ensures capacity { capacity_of self.new ≡ capacity_of self.old }
    {
        for _gone in first..end {
            self.remove(first).unwrap();
        }
    }

    // Kept: beside `set_all`, and no plainer as one: of `self.each(place, elements, |tree, at, element| tree.insert(at, element))` a contract could say what each call does, and not what all of them leave.
    /// Puts elements before a place.
    fn insert_all(&mut self, place: usize, elements: &[E])
        requires within { place ≤ length (elements_of self.old) }
        requires room { length (elements_of self.old) + length elements.now ≤ capacity_of self.old }
        ensures elements { elements_of self.new ≡ spliced (elements_of self.old) place place elements.now }
        ensures totals { TotalsRight T.ops self.old → TotalsRight T.ops self.new }
        ensures capacity { capacity_of self.new ≡ capacity_of self.old }
    {
        for (i, element) in elements.iter().enumerate() {
            self.insert(place + i, *element).unwrap();
        }
    }
}
