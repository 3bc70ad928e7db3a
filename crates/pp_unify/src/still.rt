//! Whether variables are still what they were.
ghost use Rattle.std.specs.Prelude.{◌≡◌, ◌≤◌, drop, length};
ghost use Rattle.std.specs.List.{list_all};
ghost use Rattle.pp_heap.specs.Values.{slot_at};
ghost use Rattle.pp_unify.specs.Still.{is_as_free, is_unseen};

use pp_heap::{Entry, Slot, State};

/// Whether the variable is free, with a finite domain exactly where it had one.
fn is_as_free(slots: &[Slot], variable: u32, domain: Option<u32>) -> bool
    ensures { result ≡ is_as_free (slot_at slots.now variable) domain }
{
    match slots.get(variable as usize) {
        Some(Slot::Free(now)) => now.is_some() == domain.is_some(),
        Some(_) => false,
        None => domain.is_none(),
    }
}

/// Whether nothing is seen now of what a change did to the variables below a number.
fn is_unseen(slots: &[Slot], below: usize, entry: Entry) -> bool
    ensures { result ≡ is_unseen slots.now below entry }
{
    match entry {
        Entry::Bound(variable, _) => variable as usize >= below,
        Entry::Narrowed(variable, domain) => {
            variable as usize >= below || is_as_free(slots, variable, domain)
        }
        _ => true,
    }
}

/// The same of all of these changes.
fn are_unseen(slots: &[Slot], below: usize, entries: &[Entry]) -> bool
    ensures { result ≡ list_all (is_unseen slots.now below) entries.now }
{
    entries.iter().all(|entry| is_unseen(slots, below, *entry))
}

/// The same of all changes since the trail had this length.
pub(crate) fn is_still(state: &State, mark: usize, below: usize) -> bool
    requires within { mark ≤ length state.now.trail.items }
    ensures { result ≡ list_all (is_unseen state.now.slots.items below) (drop mark state.now.trail.items) }
{
    are_unseen(state.slots.as_slice(), below, &state.trail[mark..])
}
