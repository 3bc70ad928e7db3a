//! A search with its journal, which one worker has at a time.
ghost use Rattle.std.specs.Prelude.{◌≡◌, ◌++◌, ◌∷◌, [], false, true, IfOk, IfSome, IfNone, OnErr, OnOk};
ghost use Rattle.pp_turn.specs.Logs.{Adds};
ghost use Rattle.pp_core.specs.Runs.{state, opening, is_done, is_live, answer_if};
ghost use Rattle.pp_core.specs.Worths.{IsFit};
ghost use Rattle.pp_core.specs.Journals.{replay, AreSound};
ghost use Rattle.pp_core.specs.declared.entry.Act.TheVariants.{Looked};
ghost use Rattle.pp_cell.specs.Entries.{entry, act_of, WereAccepted};

use crate::answered::Answered;
use pp_core::{Accepted, Act, Core, Entry, EntryOf, Report};
use pp_space::{Settled, Space};
use std::alloc::AllocError;

/// The core, and what was done to it. The entries replayed give the core's live tasks and its value.
#[derive(Drop)]
pub struct Book<'a, S: Space> {
    pub core: Core<'a, S>,
    pub entries: Vec<Entry<S>>,
    pub ghost live: { (replay S.are_same (S.joined core.space.now) entries.items (opening (S.bottom core.space.now) core.root)).live ≡ core.live.items },
    pub ghost value: { (replay S.are_same (S.joined core.space.now) entries.items (opening (S.bottom core.space.now) core.root)).value ≡ core.value },
    pub ghost sound: { ∥ AreSound S.are_same (S.joined core.space.now) (S.worth core.space.now) (S.fits core.space.now) entries.items (opening (S.bottom core.space.now) core.root) ∥₁ },
    pub ghost taken: { ∥ WereAccepted S.are_same (S.joined core.space.now) entries.items (opening (S.bottom core.space.now) core.root) ∥₁ },
}

/// What is answered to a report that was accepted.
fn accepted(is_done: bool) -> Accepted
    ensures { result ≡ answer_if true is_done }
{
    if is_done {
        Accepted::Settled
    } else {
        Accepted::Taken
    }
}

impl<'a, S: Space> Book<'a, S> {
    /// Takes a report, and writes it down. All memory is taken before anything changes.
    pub fn add(&mut self, seat: u32, report: Report<S>) -> Result<Answered<S>, AllocError>
        requires fit { IsFit (S.worth self.old.core.space.now) (S.joined self.old.core.space.now) (S.fits self.old.core.space.now) report }
        requires below { S.joined self.old.core.space.now report.under self.old.core.value ≡ self.old.core.value }
        ensures space { self.new.core.space ≡ self.old.core.space }
        ensures root { self.new.core.root ≡ self.old.core.root }
        ensures written { IfOk result (λ a. self.new.entries.items ≡ self.old.entries.items ++ entry seat (act_of a.accepted report) ∷ []) }
        ensures err { OnErr result (self.new.entries.items ≡ self.old.entries.items) }
        ensures adds { Adds (λ e. e.seat) seat self.old.entries.items self.new.entries.items }
        ensures answer { IfOk result (λ a. a.accepted ≡ answer_if (is_live S.are_same report.task self.old.core.live.items) (is_done (S.is_settled self.new.core.space.now) (state self.new.core.live.items self.new.core.value))) }
        ensures seen { IfOk result (λ a. a.seen ≡ self.new.core.value) }
    {
        self.entries.reserve(1)?;
        let Some(replacement) = self.core.weigh(&report)? else {
            let seen = self.core.space.copy_of(&self.core.value)?;
            let task = report.task;
            self.entries.push_reserved(EntryOf {
                seat,
                act: Act::Stale(task),
            });
            return Ok(Answered {
                accepted: Accepted::Stale,
                seen,
            });
        };
        let seen = self.core.space.copy_of(&replacement.value)?;
        self.core.replace(replacement);
        self.entries.push_reserved(EntryOf {
            seat,
            act: Act::Reported(report),
        });
        Ok(Answered {
            accepted: accepted(self.core.is_done()),
            seen,
        })
    }

    /// What the core shows; that it was looked at is written down.
    pub fn look(&mut self, seat: u32) -> Result<Option<Settled<'a, S>>, AllocError>
        ensures space { self.new.core.space ≡ self.old.core.space }
        ensures root { self.new.core.root ≡ self.old.core.root }
        ensures written { OnOk result (self.new.entries.items ≡ self.old.entries.items ++ entry seat Looked ∷ []) }
        ensures err { OnErr result (self.new.entries.items ≡ self.old.entries.items) }
        ensures adds { Adds (λ e. e.seat) seat self.old.entries.items self.new.entries.items }
        ensures none { IfOk result (λ o. IfNone o (is_done (S.is_settled self.new.core.space.now) (state self.new.core.live.items self.new.core.value) ≡ false)) }
        ensures some { IfOk result (λ o. IfSome o (λ s. is_done (S.is_settled self.new.core.space.now) (state self.new.core.live.items self.new.core.value) ≡ true)) }
        ensures shown { IfOk result (λ o. IfSome o (λ s. (s.space.now ≡ self.new.core.space.now) × (s.root ≡ self.new.core.root) × (s.value ≡ self.new.core.value))) }
    {
        self.entries.reserve(1)?;
        let shown = self.core.settle()?;
        self.entries.push_reserved(EntryOf {
            seat,
            act: Act::Looked,
        });
        Ok(shown)
    }
}
