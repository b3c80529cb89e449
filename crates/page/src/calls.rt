//! What a page can be asked and told.

ghost use Rattle.std.specs.Prelude.{◌≡◌, [], length};
ghost use Rattle.tree.specs.Plain.{Untouched, remove_answer, after_remove};
ghost use Rattle.tree.specs.Trees.{capacity_of};
ghost use Rattle.page.specs.Pages.{numbered, entries_of, room_of, put_answer, after_put, find_answer, lines_of, hits_of};

use crate::entry::Entry;
use crate::fault::PageFault;
use crate::page::Page;
use crate::sums::PageSums;
use tree::tree::Tree;

impl<'t, 'a> Page<'t, 'a> {
    /// An empty page over a tree, whose elements are dropped.
    pub fn open(tree: &'t mut Tree<'a, Entry, PageSums>) -> Self
        ensures entries { entries_of result ≡ [] }
        ensures room { room_of result ≡ capacity_of tree.old }
    {
        tree.clear();
        Page { tree }
    }

    /// How many entries are there.
    pub fn len(&self) -> usize
        ensures { result ≡ length (entries_of self.now) }
    {
        self.tree.len()
    }

    /// Puts an entry before a place.
    pub fn put(&mut self, place: usize, key: u32, lines: u32, hits: u16) -> Result<(), PageFault>
        ensures answer { numbered result ≡ put_answer (room_of self.old) (entries_of self.old) place lines }
        ensures entries { entries_of self.new ≡ after_put (room_of self.old) (entries_of self.old) place key lines hits }
        ensures refused { Untouched result self.old self.new }
        ensures room { room_of self.new ≡ room_of self.old }
    {
        let entry = Entry::new(key, lines, hits)?;
        Ok(self.tree.insert(place, entry)?)
    }

    /// Takes out the entry at a place.
    pub fn take(&mut self, place: usize) -> Result<Entry, PageFault>
        ensures answer { numbered result ≡ remove_answer (entries_of self.old) place }
        ensures entries { entries_of self.new ≡ after_remove (entries_of self.old) place }
        ensures refused { Untouched result self.old self.new }
        ensures room { room_of self.new ≡ room_of self.old }
    {
        Ok(self.tree.remove(place)?)
    }

    /// The entry that shows a line of the screen. Lines count from 0, through the entries one after another.
    pub fn find(&self, line: u32) -> Result<Entry, PageFault>
        ensures { numbered result ≡ find_answer (entries_of self.now) line }
    {
        let place = self.tree.seek(line)?;
        let (entry, _) = self.tree.read(place)?;
        Ok(entry)
    }

    /// How many lines and hits the entries have.
    pub fn sums(&self) -> PageSums
        ensures lines { result.lines ≡ lines_of (entries_of self.now) }
        ensures hits { result.hits ≡ hits_of (entries_of self.now) }
    {
        self.tree.total(0, self.len()).unwrap()
    }
}
