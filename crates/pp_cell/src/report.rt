//! A worker reports.
ghost use Rattle.std.specs.Prelude.{◌≡◌, IfOk, OnErr};
ghost use Rattle.pp_cell.specs.Entries.{act_of};
ghost use Rattle.pp_cell.specs.Passes.{Answers, Enters, IsBelow, IsFitFor, IsPassOf, SamePass, SawMore, own_entries, pass_value};

use crate::answered::Answered;
use crate::cell::{Cell, Pass};
use pp_core::Report;
use pp_space::Space;
use std::alloc::AllocError;
use std::sync::Wait;

impl<'a, S: Space> Cell<'a, S> {
    /// Waits for the turn, and reports: one entry, behind all that the pass had seen. After want of memory the journal
    /// has no entry of this call.
    pub fn report<R: Wait>(
        &self,
        rt: &R,
        pass: &mut Pass<'a, S>,
        report: Report<S>,
    ) -> Result<Answered<S>, AllocError>
        requires pass { IsPassOf self.now pass.old }
        requires fit { IsFitFor pass.old report }
        requires under { IsBelow pass.old report.under }
        ensures pass { SamePass pass.old pass.new }
        ensures entry { IfOk result (λ a. Enters pass.old (act_of a.accepted report) pass.new) }
        ensures answer { IfOk result (λ a. Answers pass.old report a.accepted pass.new) }
        ensures seen { IfOk result (λ a. a.seen ≡ pass_value pass.new) }
        ensures grows { IsBelow pass.new (pass_value pass.old) }
        ensures err { OnErr result (SawMore pass.old pass.new × (own_entries pass.new ≡ own_entries pass.old)) }
    {
        let mut book = self.turn.enter(rt, &mut pass.seat);
        let answered = book.add(pass.number, report);
        self.turn.leave(&mut pass.seat, book);
        answered
    }
}
