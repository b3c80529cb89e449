//! What a tree can be asked and told.

ghost use Rattle.std.specs.Prelude.{◌≡◌, ℕ, ◌-◌, ◌^◌, ◌≤◌, min, [], length, is_ok, IfOk, Ok, Err, nat_lt};
ghost use Rattle.std.specs.List.{slice_get};
ghost use Rattle.tree.specs.Plain.{numbered, Untouched, found, with_depth, insert_answer, after_insert, remove_answer, after_remove, replace_answer, after_replace, total_answer, seek_answer, around_answer, copy_answer, copied, fits};
ghost use Rattle.tree.specs.Trees.{elements_of, capacity_of, depth_in, TotalsRight, least, places_at};

use crate::around::around_below;
use crate::below::{part_of, read_below};
use crate::copy::copy_below;
use crate::fault::Fault;
use crate::measure::Measure;
use crate::pool::{insert_in, remove_in};
use crate::row::{Heads, Row};
use crate::seek::seek_below;
use crate::total::total_below;
use crate::tree::Tree;

/// The most elements that a tree takes, however many rows it is lent.
pub const LIMIT: usize = 4096;

impl<'a, E: Copy, T: Measure<E>> Tree<'a, E, T> {
    /// An empty tree, whatever the rows held.
    pub fn open(rows: &'a mut [Row<E, T>]) -> Self
        ensures elements { elements_of result ≡ [] }
        ensures totals { TotalsRight T.ops result }
        ensures capacity { capacity_of result ≡ min 4096 (length rows.old) }
    {
        Tree {
            rows,
            heads: Heads::EMPTY,
        }
    }

    // Kept: each call that changes a tree, here and in the crates above, says that the capacity stays: a type holds what is true at one moment and not what two have in common.
    /// Drops every element; the rows can all be used again.
    pub fn clear(&mut self)
        ensures elements { elements_of self.new ≡ [] }
        ensures totals { TotalsRight T.ops self.new }
        ensures capacity { capacity_of self.new ≡ capacity_of self.old }
    {
        self.heads = Heads::EMPTY;
    }

    /// How many elements are there.
    pub fn len(&self) -> usize
        ensures count { result ≡ length (elements_of self.now) }
        ensures room { result ≤ capacity_of self.now }
    {
        usize::from(self.heads.count)
    }

    /// How many elements can be there.
    pub fn capacity(&self) -> usize
        ensures { result ≡ capacity_of self.now }
    {
        self.rows.len().min(LIMIT)
    }

    /// Puts an element before a place.
    pub fn insert(&mut self, place: usize, element: E) -> Result<(), Fault>
        ensures answer { numbered result ≡ insert_answer (capacity_of self.old) (elements_of self.old) place }
        ensures elements { elements_of self.new ≡ after_insert (capacity_of self.old) (elements_of self.old) place element }
        ensures refused { Untouched result self.old self.new }
        ensures totals { TotalsRight T.ops self.old → TotalsRight T.ops self.new }
        ensures capacity { capacity_of self.new ≡ capacity_of self.old }
    {
        let count = self.len();
        if place > count {
            return Err(Fault::Place);
        }
        if count >= self.capacity() {
            return Err(Fault::Full);
        }
        // Kept: `as u16` wherever a tested place goes into a row: the check proves that it loses nothing, and `u16::try_from(place).unwrap()` would test it a second time.
        self.heads = insert_in(self.rows, self.heads, place as u16, element);
        Ok(())
    }

    /// Takes out the element at a place.
    pub fn remove(&mut self, place: usize) -> Result<E, Fault>
        ensures answer { numbered result ≡ remove_answer (elements_of self.old) place }
        ensures elements { elements_of self.new ≡ after_remove (elements_of self.old) place }
        ensures refused { Untouched result self.old self.new }
        ensures totals { TotalsRight T.ops self.old → TotalsRight T.ops self.new }
        ensures capacity { capacity_of self.new ≡ capacity_of self.old }
    {
        let count = self.len();
        if place >= count {
            return Err(Fault::Place);
        }
        let (heads, element) = remove_in(self.rows, self.heads, place as u16);
        self.heads = heads;
        Ok(element)
    }

    /// The element at a place, and the depth of its row: the number of rows from the root to it, both included.
    pub fn read(&self, place: usize) -> Result<(E, u16), Fault>
        ensures answer { numbered result ≡ with_depth (depth_in self.now place) (found (slice_get (elements_of self.now) place)) }
        ensures deep { IfOk result (λ told. least told.1 ≤ length (elements_of self.now)) }
        ensures sparse { (k : ℕ) → places_at (depth_in self.now) k (length (elements_of self.now)) ≤ 2 ^ (k - 1) }
    {
        if place >= self.len() {
            return Err(Fault::Place);
        }
        Ok(read_below(self.rows, self.heads.root, place as u16))
    }

    /// The element at a place, between the total of all elements before it and the total of all behind it.
    pub fn around(&self, place: usize) -> Result<(T, E, T), Fault>
        ensures answer { TotalsRight T.ops self.now → numbered result ≡ around_answer T.ops (elements_of self.now) place }
        ensures refusal { is_ok result ≡ nat_lt place (length (elements_of self.now)) }
    {
        if place >= self.len() {
            return Err(Fault::Place);
        }
        Ok(around_below(self.rows, self.heads.root, place as u16))
    }

    /// Copies the elements from a place on into a buffer, as many as are there and fit, and answers how many. Further entries stay.
    pub fn copy(&self, first: usize, out: &mut [E]) -> Result<usize, Fault>
        ensures answer { numbered result ≡ copy_answer (elements_of self.now) first (length out.old) }
        ensures out { out.new ≡ copied (elements_of self.now) first out.old }
    {
        let count = self.len();
        if first > count {
            return Err(Fault::Place);
        }
        let copied = out.len().min(count - first);
        copy_below(self.rows, self.heads.root, first, &mut out[0..copied]);
        Ok(copied)
    }

    /// The total of a stretch: the totals of its elements, joined first to last.
    pub fn total(&self, first: usize, end: usize) -> Result<T, Fault>
        ensures answer { TotalsRight T.ops self.now → numbered result ≡ total_answer T.ops (elements_of self.now) first end }
        ensures refusal { is_ok result ≡ fits (elements_of self.now) first end }
    {
        if first > end {
            return Err(Fault::Stretch);
        }
        if end > self.len() {
            return Err(Fault::Stretch);
        }
        Ok(total_below(self.rows, self.heads.root, first as u16, end as u16))
    }

    /// The first place whose element, with all before it, weighs more than `weight`.
    pub fn seek(&self, weight: u32) -> Result<usize, Fault>
        ensures { TotalsRight T.ops self.now → numbered result ≡ seek_answer T.ops (elements_of self.now) weight }
    {
        let whole = part_of(self.rows, self.heads.root);
        if whole.total.weight() <= weight {
            return Err(Fault::Weight);
        }
        Ok(usize::from(seek_below(self.rows, self.heads.root, weight)))
    }
}
