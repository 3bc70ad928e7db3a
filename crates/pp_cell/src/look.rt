//! A worker looks.
ghost use Rattle.std.specs.Prelude.{◌≡◌, true, false, IfOk, IfSome, IfNone, OnErr, OnOk};
ghost use Rattle.pp_core.specs.declared.entry.Act.TheVariants.{Looked};
ghost use Rattle.pp_cell.specs.Passes.{Enters, IsBelow, IsPassOf, SamePass, SawMore, is_over, own_entries, pass_root, pass_space, pass_value};

use crate::cell::{Cell, Pass};
use pp_space::{Settled, Space};
use std::alloc::AllocError;
use std::sync::Wait;

impl<'a, S: Space> Cell<'a, S> {
    /// Waits for the turn, and looks: one entry. None where at that turn a task is live and the value isn't settled. After
    /// want of memory the journal has no entry of this call.
    pub fn look<R: Wait>(
        &self,
        rt: &R,
        pass: &mut Pass<'a, S>,
    ) -> Result<Option<Settled<'a, S>>, AllocError>
        requires pass { IsPassOf self.now pass.old }
        ensures pass { SamePass pass.old pass.new }
        ensures entry { OnOk result (Enters pass.old Looked pass.new) }
        ensures none { IfOk result (λ o. IfNone o (is_over pass.new ≡ false)) }
        ensures some { IfOk result (λ o. IfSome o (λ s. is_over pass.new ≡ true)) }
        ensures space { IfOk result (λ o. IfSome o (λ s. s.space.now ≡ pass_space pass.old)) }
        ensures root { IfOk result (λ o. IfSome o (λ s. s.root ≡ pass_root pass.old)) }
        ensures value { IfOk result (λ o. IfSome o (λ s. s.value ≡ pass_value pass.new)) }
        ensures grows { IsBelow pass.new (pass_value pass.old) }
        ensures err { OnErr result (SawMore pass.old pass.new × (own_entries pass.new ≡ own_entries pass.old)) }
    {
        let mut book = self.turn.enter(rt, &mut pass.seat);
        let shown = book.look(pass.number);
        self.turn.leave(&mut pass.seat, book);
        shown
    }
}
