//! Goals in a queue, with a flag for each that says whether it stands there.
ghost use Rattle.std.specs.Prelude.{◌≡◌, ℕ, [], ◌∷◌, IfOk, MatchOption, IfSome, not, nat_eq, slice_get};
ghost use Rattle.pp_algebra.specs.Canon.{has, firsts};
ghost use Rattle.pp_propagation.specs.Histories.{numbers_from};
ghost use Rattle.pp_wake.specs.Waiting.{IsGoalOf};

use std::alloc::{AllocError, Global};
use std::collections::VecDeque;
use std::marker::Model;

/// The goals that wait for their turn, each of them once: the one that has waited longest has the next turn.
///
/// Goals are numbered from 1. A contract sees how many there are, and the list of those that wait.
#[derive(Debug, Drop)]
pub struct Wake {
    queue: VecDeque<u32>,
    // whether goal n waits, at place n - 1
    flags: Vec<bool>,
}

impl Model for Wake {
    ghost use Rattle.std.specs.Prelude.{length};
    ghost use Rattle.std.specs.VecDeque.{deque_len, deque_capacity};
    ghost use Rattle.pp_wake.specs.Waiting.{Waiting};
    ghost use Rattle.pp_wake.specs.Flags.{Agree};

    ghost Value = { Waiting };

    ghost view = { λ s. record { goals = length s.flags.items; waiting = s.queue.items } };

    ghost invariant = { λ s. Agree s.flags.items s.queue.items (deque_len s.queue) (deque_capacity s.queue) };
}

impl Wake {
    /// All goals wait, in the order of their numbers. No later call takes memory.
    pub fn new(alloc: Global, goals: u32) -> Result<Wake, AllocError>
        ensures goals { IfOk result (λ w. w.goals ≡ goals) }
        ensures waiting { IfOk result (λ w. w.waiting ≡ numbers_from 1 goals) }
    {
        let mut queue = VecDeque::with_capacity(alloc, goals as usize)?;
        for before in 0..goals {
            queue.push_back_reserved(before + 1);
        }
        let flags = vec![in alloc; true; goals as usize]?;
        Ok(Wake { queue, flags })
    }

    /// Takes out the goal that has waited longest; `None` exactly where none waits.
    pub fn take(&mut self) -> Option<u32>
        ensures goals { self.new.goals ≡ self.old.goals }
        ensures taken { MatchOption result
            ((self.old.waiting ≡ []) × (self.new.waiting ≡ []))
            (λ goal. self.old.waiting ≡ goal ∷ self.new.waiting) }
        ensures goal { IfSome result (λ goal. IsGoalOf self.old.goals goal) }
    {
        let goal = self.queue.pop_front()?;
        self.flags[goal as usize - 1] = false;
        Some(goal)
    }

    /// The goal at this place of the list, counted from 0.
    pub fn first(&self, place: u32) -> Option<u32>
        ensures { result ≡ slice_get self.now.waiting place }
    {
        self.queue.get(place as usize).copied()
    }

    /// Whether the goal waits.
    pub fn waits(&self, goal: u32) -> bool
        requires goal { IsGoalOf self.now.goals goal }
        ensures { result ≡ has nat_eq self.now.waiting goal }
    {
        self.flags[goal as usize - 1]
    }

    /// Puts the goal at the end of the list, and answers true, exactly where it doesn't wait.
    pub fn wake(&mut self, goal: u32) -> bool
        requires goal { IsGoalOf self.old.goals goal }
        ensures goals { self.new.goals ≡ self.old.goals }
        ensures woken { result ≡ not (has nat_eq self.old.waiting goal) }
        ensures waiting { self.new.waiting ≡ firsts nat_eq self.old.waiting (goal ∷ []) }
    {
        let place = goal as usize - 1;
        if self.flags[place] {
            return false;
        }
        self.flags[place] = true;
        self.queue.push_back_reserved(goal);
        true
    }
}
