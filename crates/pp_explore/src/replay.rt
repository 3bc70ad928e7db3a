//! A walker goes where a path leads.
ghost use Rattle.std.specs.Prelude.{◌≡◌, ◌≢◌, ◌<◌, ◌≤◌, ℕ, List, true, false, ◌∷◌, ◌++◌, [], None, take, length, map, IfOk, OnErr};
ghost use Rattle.pp_walk.specs.Moves.{IsAtChoice};
ghost use Rattle.pp_path.specs.Works.{level_by, levels_of};
ghost use Rattle.pp_explore.specs.Standing.{StaysOver, MissesOver, Comes, nows};
ghost use Rattle.pp_explore.specs.Searching.{IsAbove};

use crate::Walker;
use pp_path::{Level, Work};
use pp_walk::{Event, SearchMachine, Steps};
use std::alloc::AllocError;
use std::marker::Brand;
use std::sync::ledger::{Blank, Ledger};

impl<M: SearchMachine> Walker<M> {
    /// How many choices at the beginning of the path are those of the levels.
    fn shared(&self, levels: &[Level]) -> usize
        ensures within { result ≤ length levels.now }
        ensures same { take result self.now.path.items ≡ take result (nows levels.now) }
    {
        for i in 0..levels.len() {
            if i >= self.path.len() {
                return i;
            }
            if self.path[i] != levels[i].now {
                return i;
            }
        }
        levels.len()
    }

    /// Performs built-ins up to the next choice, and answers how many alternatives it has; None where the branch
    /// ends before one.
    fn pass<L: Ledger>(&mut self, steps: &mut Steps<L>) -> Result<Option<u64>, AllocError>
        ensures clauses { M.clauses self.new.machine ≡ M.clauses self.old.machine }
        ensures path { self.new.path.items ≡ self.old.path.items }
        ensures stands { StaysOver (M.clauses self.old.machine) (M.place self.old.machine) self.old.path.items
            (M.place self.new.machine) self.old.path.items }
        ensures comes { IfOk result (λ o. Comes (M.clauses self.old.machine) (M.place self.new.machine).here o) }
    {
        loop {
            match self.machine.step(steps)? {
                Event::Went => {}
                Event::Choice(count) => return Ok(Some(count)),
                Event::Failed => return Ok(None),
                Event::Answer => return Ok(None),
                Event::Loose => return Ok(None),
            }
        }
    }

    /// Takes the alternative at this place of the next choice; false where it fails, isn't there, or the branch ends
    /// before.
    fn descend<L: Ledger>(&mut self, at: u64, steps: &mut Steps<L>) -> Result<bool, AllocError>
        ensures clauses { M.clauses self.new.machine ≡ M.clauses self.old.machine }
        ensures stands { StaysOver (M.clauses self.old.machine) (M.place self.old.machine) self.old.path.items
            (M.place self.new.machine) self.new.path.items }
        ensures there { IfOk result (λ goes. goes ≡ true → self.new.path.items ≡ self.old.path.items ++ at ∷ []) }
        ensures missed { IfOk result (λ goes. goes ≡ false → (js : List ℕ)
            → MissesOver (M.clauses self.old.machine) (M.place self.old.machine) self.old.path.items
            (self.old.path.items ++ at ∷ js)) }
    {
        match self.pass(steps)? {
            Some(count) => {
                if at < count {
                    self.take(at, steps)
                } else {
                    Ok(false)
                }
            }
            None => Ok(false),
        }
    }

    fn descend_all<L: Ledger>(
        &mut self,
        levels: &[Level],
        steps: &mut Steps<L>,
    ) -> Result<bool, AllocError>
        ensures clauses { M.clauses self.new.machine ≡ M.clauses self.old.machine }
        ensures stands { StaysOver (M.clauses self.old.machine) (M.place self.old.machine) self.old.path.items
            (M.place self.new.machine) self.new.path.items }
        ensures there { IfOk result (λ goes. goes ≡ true
            → self.new.path.items ≡ self.old.path.items ++ nows levels.now) }
        ensures missed { IfOk result (λ goes. goes ≡ false
            → MissesOver (M.clauses self.old.machine) (M.place self.old.machine) self.old.path.items
            (self.old.path.items ++ nows levels.now)) }
    {
        for level in levels {
            if !self.descend(level.now, steps)? {
                return Ok(false);
            }
        }
        Ok(true)
    }

    /// What is done again is counted for nobody.
    fn descend_again<L: Ledger>(
        &mut self,
        blank: Blank,
        levels: &[Level],
    ) -> Result<bool, AllocError>
        requires name { blank.name ≡ L.name }
        requires parts { blank.parts ≡ L.parts }
        requires some { 0 < blank.parts }
        ensures clauses { M.clauses self.new.machine ≡ M.clauses self.old.machine }
        ensures stands { StaysOver (M.clauses self.old.machine) (M.place self.old.machine) self.old.path.items
            (M.place self.new.machine) self.new.path.items }
        ensures there { IfOk result (λ goes. goes ≡ true
            → self.new.path.items ≡ self.old.path.items ++ nows levels.now) }
        ensures missed { IfOk result (λ goes. goes ≡ false
            → MissesOver (M.clauses self.old.machine) (M.place self.old.machine) self.old.path.items
            (self.old.path.items ++ nows levels.now)) }
    {
        let mut steps: Steps<L> = Steps::new(blank);
        self.descend_all(levels, &mut steps)
    }

    /// Goes back to where its path and that of the levels part, and takes the choices of the levels from there on,
    /// past built-ins; true where it stands at their whole path, false where that misses. Where it stands at that
    /// path already, or at a choice on it, it does nothing again.
    pub fn go_to(&mut self, levels: &[Level]) -> Result<bool, AllocError>
        ensures clauses { M.clauses self.new.machine ≡ M.clauses self.old.machine }
        ensures stands { StaysOver (M.clauses self.old.machine) (M.place self.old.machine) self.old.path.items
            (M.place self.new.machine) self.new.path.items }
        ensures there { IfOk result (λ goes. goes ≡ true → self.new.path.items ≡ nows levels.now) }
        ensures missed { IfOk result (λ goes. goes ≡ false
            → MissesOver (M.clauses self.old.machine) (M.place self.old.machine) self.old.path.items
            (nows levels.now)) }
    {
        let shared = self.shared(levels);
        self.back_to(shared);
        self.descend_again::<Brand>(Blank::new(1), &levels[shared..])
    }

    /// Goes where the choices of a work's path lead, from wherever it stands; false where one of them fails or isn't
    /// there. After false and after want of memory no choice is taken: it stands where the search began, or behind
    /// built-ins that come before the first choice.
    pub fn replay(&mut self, work: &Work) -> Result<bool, AllocError>
        requires open { work.now ≢ None }
        ensures clauses { M.clauses self.new.machine ≡ M.clauses self.old.machine }
        ensures stands { StaysOver (M.clauses self.old.machine) (M.place self.old.machine) self.old.path.items
            (M.place self.new.machine) self.new.path.items }
        ensures there { IfOk result (λ goes. goes ≡ true → self.new.path.items ≡ nows (levels_of work.now)) }
        ensures missed { IfOk result (λ goes. goes ≡ false
            → MissesOver (M.clauses self.old.machine) (M.place self.old.machine) self.old.path.items
            (nows (levels_of work.now))) }
        ensures root { IfOk result (λ goes. goes ≡ false → self.new.path.items ≡ []) }
        ensures err { OnErr result (self.new.path.items ≡ []) }
    {
        let goes = self.go_to(work.path());
        match goes {
            Ok(true) => {}
            _ => self.back_to(0),
        }
        goes
    }

    /// Passes built-ins, and answers whether a choice comes.
    fn pass_again<L: Ledger>(&mut self, blank: Blank) -> Result<bool, AllocError>
        requires name { blank.name ≡ L.name }
        requires parts { blank.parts ≡ L.parts }
        requires some { 0 < blank.parts }
        ensures clauses { M.clauses self.new.machine ≡ M.clauses self.old.machine }
        ensures path { self.new.path.items ≡ self.old.path.items }
        ensures stands { StaysOver (M.clauses self.old.machine) (M.place self.old.machine) self.old.path.items
            (M.place self.new.machine) self.old.path.items }
        ensures choice { IfOk result (λ comes. comes ≡ true
            → IsAtChoice (M.clauses self.old.machine) (M.place self.new.machine).here) }
        ensures missed { IfOk result (λ comes. comes ≡ false → (k : ℕ) (js : List ℕ)
            → MissesOver (M.clauses self.old.machine) (M.place self.old.machine) self.old.path.items
            (self.old.path.items ++ k ∷ js)) }
    {
        let mut steps: Steps<L> = Steps::new(blank);
        match self.pass(&mut steps)? {
            Some(_) => Ok(true),
            None => Ok(false),
        }
    }

    /// Goes to the choice whose alternatives the last of these levels counts; false where there is none, and then
    /// their whole path misses.
    pub(crate) fn go_above(&mut self, levels: &[Level]) -> Result<bool, AllocError>
        requires { 1 ≤ length levels.now }
        ensures clauses { M.clauses self.new.machine ≡ M.clauses self.old.machine }
        ensures stands { StaysOver (M.clauses self.old.machine) (M.place self.old.machine) self.old.path.items
            (M.place self.new.machine) self.new.path.items }
        ensures above { IfOk result (λ comes. comes ≡ true → IsAbove (map level_by levels.now) self.new.path.items) }
        ensures choice { IfOk result (λ comes. comes ≡ true
            → IsAtChoice (M.clauses self.old.machine) (M.place self.new.machine).here) }
        ensures missed { IfOk result (λ comes. comes ≡ false
            → MissesOver (M.clauses self.old.machine) (M.place self.old.machine) self.old.path.items
            (nows levels.now)) }
    {
        if !self.go_to(&levels[..levels.len() - 1])? {
            return Ok(false);
        }
        self.pass_again::<Brand>(Blank::new(1))
    }
}
