//! One search of a work, for a budget of reductions.
ghost use Rattle.std.specs.Prelude.{◌≡◌, ◌≢◌, ◌≤◌, ◌<◌, ◌+◌, ◌∷◌, [], true, false, None, map, All, IfOk};
ghost use Rattle.pp_sld.specs.Leaves.{root};
ghost use Rattle.pp_sld.specs.Works.{IsLater};
ghost use Rattle.pp_term.specs.Meanings.{mode_of, program, shape_of};
ghost use Rattle.pp_path.specs.Works.{work_by};
ghost use Rattle.pp_find.specs.Meanings.{none_yet, FitsIn};
ghost use Rattle.pp_stop.specs.Seats.{IsSeatOf, StillSeen, has_seen, late, loads, saw_dry, saw_settled};
ghost use Rattle.pp_stop.specs.Words.{up_of};
ghost use Rattle.pp_stop.specs.declared.up.Up.TheVariants.{No};
ghost use Rattle.pp_search.specs.Searches.{IsOver};
ghost use Rattle.pp_search.specs.Worths.{IsFit};

use crate::{Gathered, Search};
use pp_core::Tasks;
use pp_explore::{Explored, Walker, explore};
use pp_find::Finding;
use pp_path::Work;
use pp_resolve::Machine;
use pp_space::Lattice;
use pp_stop::{Stop, StopSeat, Up};
use pp_walk::Steps;
use pp_worker::FoundOf;
use std::alloc::AllocError;
use std::sync::ledger::{Blank, Ledger};

impl<'a> Search<'a> {
    /// Of a spent work there is nothing to find, and nothing is left. Where the word is up it is handed back.
    pub(crate) fn search_spent(
        &self,
        task: &Work,
        stop: &Stop,
        seat: &mut StopSeat,
    ) -> Result<FoundOf<Work, Finding>, AllocError>
        requires spent { task.now ≡ None }
        requires seat { IsSeatOf stop.now seat.old }
        ensures seat { IsSeatOf stop.now seat.new }
        ensures seen { StillSeen seat.old seat.new }
        ensures late { has_seen seat.old ≡ false → late seat.new ≡ late seat.old }
        ensures up { IfOk result (λ found. found.up ≡ up_of (saw_settled seat.new) (saw_dry seat.new)) }
        ensures loads { loads seat.new ≡ loads seat.old + 1 }
        ensures value { IfOk result (λ found. found.value ≡ none_yet (mode_of self.now.findings.mode)) }
        ensures stopped { has_seen seat.old ≡ true → IfOk result (λ found. found.rest ≡ task.now ∷ []) }
        ensures done { IfOk result (λ found. found.up ≡ No → found.rest ≡ []) }
        ensures worth { IfOk result (λ found.
            IsFit (program self.now.clauses.now) (shape_of self.now.shape) self.now.face self.now.depth
            (mode_of self.now.findings.mode) task.now found.value found.rest) }
    {
        let up = stop.is_up(seat);
        let mut rest = Vec::new(self.alloc);
        if up != Up::No {
            rest.push(task.copy()?)?;
        }
        Ok(FoundOf {
            value: self.empty(),
            rest: Tasks::from_vec(rest),
            up,
        })
    }

    /// The leaves that are met are gathered from nothing, and counted for nobody.
    pub(crate) fn search_open<L: Ledger>(
        &self,
        blank: Blank,
        walker: &mut Walker<Machine<'a>>,
        task: &Work,
        budget: u32,
        stop: &Stop,
        seat: &mut StopSeat,
    ) -> Result<FoundOf<Work, Finding>, AllocError>
        requires name { blank.name ≡ L.name }
        requires parts { blank.parts ≡ L.parts }
        requires some { 0 < blank.parts }
        requires open { task.now ≢ None }
        requires walker { ∥ IsOver (program self.now.clauses.now)
            (root (shape_of self.now.shape) self.now.face self.now.depth) (program walker.old.machine.clauses)
            walker.old.machine.place walker.old.path.items ∥₁ }
        requires budget { 1 ≤ budget }
        requires seat { IsSeatOf stop.now seat.old }
        ensures walker { ∥ IsOver (program self.now.clauses.now)
            (root (shape_of self.now.shape) self.now.face self.now.depth) (program walker.new.machine.clauses)
            walker.new.machine.place walker.new.path.items ∥₁ }
        ensures seat { IsSeatOf stop.now seat.new }
        ensures seen { StillSeen seat.old seat.new }
        ensures late { has_seen seat.old ≡ false → late seat.new ≡ late seat.old }
        ensures fits { IfOk result (λ found.
            ∥ FitsIn (mode_of self.now.findings.mode) self.now.findings.call found.value ∥₁) }
        ensures worth { IfOk result (λ found.
            IsFit (program self.now.clauses.now) (shape_of self.now.shape) self.now.face self.now.depth
            (mode_of self.now.findings.mode) task.now found.value found.rest) }
        ensures up { IfOk result (λ found. found.up ≡ up_of (saw_settled seat.new) (saw_dry seat.new)) }
        ensures stopped { has_seen seat.old ≡ true
            → IfOk result (λ found. (loads seat.new ≡ loads seat.old + 1)
            × (found.value ≡ none_yet (mode_of self.now.findings.mode)) × (found.rest ≡ task.now ∷ [])) }
        ensures budget { IfOk result (λ found. found.rest ≢ [] → found.up ≡ No
            → loads seat.old + budget ≤ loads seat.new) }
        ensures later { IfOk result (λ found. found.up ≡ No
            → All (λ w. IsLater (work_by w) (work_by task.now)) found.rest) }
    {
        let mut steps: Steps<L> = Steps::new(blank);
        let call = self.findings.call.copy()?;
        let mut gathered = Gathered::new(self.alloc, self.findings.mode, call);
        let Explored { rest, up } = explore(
            self.alloc,
            walker,
            task,
            &mut gathered,
            budget,
            stop,
            seat,
            &mut steps,
        )?;
        let value = gathered.collector.finding()?;
        Ok(FoundOf {
            value,
            rest: Tasks::from_vec(rest),
            up,
        })
    }
}
