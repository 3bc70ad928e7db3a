//! What a report does to a core.
ghost use Rattle.std.specs.Prelude.{◌≡◌, ◌<◌, ◌≤◌, ◌+◌, true, false, IfOk, OnErr, IfSome, IfNone, ◌++◌, remove, vec_len, vec_capacity};
ghost use Rattle.pp_core.specs.Runs.{is_live, without, state, after, is_done, answer_if};
ghost use Rattle.pp_core.specs.Worths.{with_worths, IsFit};

use crate::tasks::copy_tasks;
use crate::{Accepted, Core, Report};
use pp_space::Space;
use std::alloc::{AllocError, Global};

/// What a report that counts will do to a core.
#[derive(Drop)]
pub struct Replacement<S: Space> {
    pub place: usize,
    pub rest: Vec<S::Task>,
    pub value: S::Value,
}

impl<'a, S: Space> Core<'a, S> {
    /// The place of the first live task that is the same. Tasks are handed out first in, first out, so the one that
    /// is reported is among the oldest, which stand first.
    fn find(&self, task: &S::Task) -> Option<usize>
        ensures none { IfNone result (is_live S.are_same task.now self.now.live.items ≡ false) }
        ensures within { IfSome result (λ place. place < vec_len self.now.live) }
        ensures live { IfSome result (λ place. is_live S.are_same task.now self.now.live.items ≡ true) }
        ensures first { IfSome result (λ place. remove self.now.live.items place ≡ without S.are_same task.now self.now.live.items) }
    {
        for i in 0..self.live.len() {
            if self.space.same(task, &self.live[i]) {
                return Some(i);
            }
        }
        None
    }

    /// What a report will do, before it is done; None where its task isn't live. Only this step takes memory.
    pub fn weigh(&mut self, report: &Report<S>) -> Result<Option<Replacement<S>>, AllocError>
        requires { ∥ S.fits self.old.space.now report.now.found ∥₁ }
        ensures space { self.new.space ≡ self.old.space }
        ensures root { self.new.root ≡ self.old.root }
        ensures tasks { self.new.live.items ≡ self.old.live.items }
        ensures value { self.new.value ≡ self.old.value }
        ensures stale { IfOk result (λ o. IfNone o (is_live S.are_same report.now.task self.old.live.items ≡ false)) }
        ensures live { IfOk result (λ o. IfSome o (λ r. is_live S.are_same report.now.task self.old.live.items ≡ true)) }
        ensures rest { IfOk result (λ o. IfSome o (λ r. r.rest.items ≡ report.now.rest)) }
        ensures joined { IfOk result (λ o. IfSome o (λ r. r.value ≡ S.joined self.old.space.now self.old.value report.now.found)) }
        ensures within { IfOk result (λ o. IfSome o (λ r. r.place < vec_len self.new.live)) }
        ensures place { IfOk result (λ o. IfSome o (λ r. remove self.new.live.items r.place ≡ without S.are_same report.now.task self.new.live.items)) }
        ensures room { IfOk result (λ o. IfSome o (λ r. vec_len self.new.live + vec_len r.rest ≤ vec_capacity self.new.live)) }
    {
        let Some(place) = self.find(&report.task) else {
            return Ok(None);
        };
        let rest = copy_tasks(*self.live.allocator(), self.space, report.rest.as_slice())?;
        let value = self.space.join(&self.value, &report.found)?;
        self.live.reserve(rest.len())?;
        Ok(Some(Replacement { place, rest, value }))
    }

    /// Does what was weighed. It takes no memory.
    pub fn replace(&mut self, replacement: Replacement<S>)
        requires within { replacement.place < vec_len self.old.live }
        requires room { vec_len self.old.live + vec_len replacement.rest ≤ vec_capacity self.old.live }
        requires fits { ∥ S.fits self.old.space.now replacement.value ∥₁ }
        requires whole { with_worths (S.worth self.old.space.now) (S.joined self.old.space.now) replacement.value (remove self.old.live.items replacement.place ++ replacement.rest.items) ≡ S.worth self.old.space.now self.old.root }
        ensures space { self.new.space ≡ self.old.space }
        ensures root { self.new.root ≡ self.old.root }
        ensures tasks { self.new.live.items ≡ remove self.old.live.items replacement.place ++ replacement.rest.items }
        ensures value { self.new.value ≡ replacement.value }
    {
        let Replacement {
            place,
            mut rest,
            value,
        } = replacement;
        self.live.remove(place);
        let Ok(()) = self.live.append(&mut rest) else {
            unreachable!()
        };
        self.value = value;
    }

    /// Takes a report. The first live task that is the same as its task gives way to its rest, and what was found is
    /// joined to the value; a report whose task isn't live changes nothing.
    pub fn accept(&mut self, report: Report<S>) -> Result<Accepted, AllocError>
        requires fit { IsFit (S.worth self.old.space.now) (S.joined self.old.space.now) (S.fits self.old.space.now) report }
        requires below { S.joined self.old.space.now report.under self.old.value ≡ self.old.value }
        ensures space { self.new.space ≡ self.old.space }
        ensures root { self.new.root ≡ self.old.root }
        ensures state { IfOk result (λ answer. state self.new.live.items self.new.value ≡ after S.are_same (S.joined self.old.space.now) report (state self.old.live.items self.old.value)) }
        ensures answer { IfOk result (λ answer. answer ≡ answer_if (is_live S.are_same report.task self.old.live.items) (is_done (S.is_settled self.new.space.now) (state self.new.live.items self.new.value))) }
        ensures err { OnErr result (state self.new.live.items self.new.value ≡ state self.old.live.items self.old.value) }
    {
        let Some(replacement) = self.weigh(&report)? else {
            return Ok(Accepted::Stale);
        };
        self.replace(replacement);
        Ok(if self.is_done() {
            Accepted::Settled
        } else {
            Accepted::Taken
        })
    }
}
