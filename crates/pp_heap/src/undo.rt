//! Going back to an earlier state.
ghost use Rattle.std.specs.Prelude.{◌≡◌, ◌≤◌, length};
ghost use Rattle.pp_heap.specs.Soundness.{IsGood, IsKept, IsWithin};
ghost use Rattle.pp_heap.specs.Stores.{store_of, before};

use crate::state::{Entry, Slot, State};

impl State {
    /// Undoes one change, which was taken from the trail.
    fn undo_entry(&mut self, entry: Entry)
        requires within { IsWithin entry (store_of self.old) }
        ensures store { store_of self.new ≡ before entry (store_of self.old) }
        ensures trail { self.new.trail.items ≡ self.old.trail.items }
    {
        match entry {
            Entry::Grown(length) => self.heap.truncate(length as usize),
            Entry::Held(length) => self.domains.truncate(length as usize),
            Entry::Bound(variable, domain) | Entry::Narrowed(variable, domain) => {
                self.slots[variable as usize] = Slot::Free(domain);
            }
            Entry::Added(length) | Entry::Defined(length) => self.slots.truncate(length as usize),
        }
    }

    /// Undoes the changes since the trail had this length.
    pub fn undo(&mut self, mark: usize)
        requires good { IsGood self.old }
        requires within { mark ≤ length self.old.trail.items }
        ensures good { IsGood self.new }
        ensures kept { IsKept self.new self.old }
        ensures length { length self.new.trail.items ≡ mark }
    {
        while self.trail.len() > mark {
            if let Some(entry) = self.trail.pop() {
                self.undo_entry(entry);
            }
        }
    }
}
