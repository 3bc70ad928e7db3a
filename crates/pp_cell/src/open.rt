//! A cell is made, with all its passes.
ghost use Rattle.std.specs.Prelude.{◌≡◌, ◌≤◌, ◌+◌, ◌∷◌, [], ℕ, Some, IfOk, slice_get, vec_len, vec_capacity, map};
ghost use Rattle.pp_turn.specs.Seats.{AreSeats, Rests};
ghost use Rattle.pp_cell.specs.Passes.{ArePasses, pass_journal, pass_root, pass_space};

use crate::book::Book;
use crate::cell::{Cell, Pass};
use pp_core::Core;
use pp_space::Space;
use pp_turn::{Seat, Turn};
use std::alloc::{AllocError, Global};

/// The search before its first entry.
fn open<'a, S: Space>(alloc: Global, space: &'a S, root: S::Task) -> Result<Book<'a, S>, AllocError>
    ensures space { IfOk result (λ book. book.core.space.now ≡ space.now) }
    ensures root { IfOk result (λ book. book.core.root ≡ root) }
    ensures entries { IfOk result (λ book. book.entries.items ≡ []) }
{
    let core = Core::new(alloc, space, root)?;
    Ok(Book {
        core,
        entries: Vec::new(alloc),
    })
}

/// A seat as a pass.
fn pass_of<'a, S: Space>(
    seat: Seat<Book<'a, S>>,
    space: &'a S,
    root: S::Task,
    number: u32,
) -> Pass<'a, S>
    requires seat { (lock : _) × Rests lock (Some record { space = space.now; root = root }) number 1 [] seat }
    ensures seat { result.seat ≡ seat.entry }
    ensures space { result.space.now ≡ space.now }
    ensures root { result.root ≡ root }
    ensures number { result.number ≡ number }
{
    Pass {
        seat,
        space,
        root,
        number,
    }
}

/// The seats as passes, in their order.
fn passes_of<'a, S: Space>(
    mut all: Vec<Pass<'a, S>>,
    space: &'a S,
    root: &S::Task,
    mut seats: Vec<Seat<Book<'a, S>>>,
) -> Result<Vec<Pass<'a, S>>, AllocError>
    requires empty { all.items ≡ [] }
    requires room { vec_len seats ≤ vec_capacity all }
    requires few { vec_len seats ≤ 65 }
    requires seats { (lock : _) × AreSeats lock record { space = space.now; root = root.now } seats.items }
    ensures seats { IfOk result (λ passes. map (λ p. p.seat) passes.items ≡ seats.entry.items) }
    ensures passes { IfOk result (λ passes. (i : ℕ) (p : _) → slice_get passes.items i ≡ Some p → (p.space.now ≡ space.now) × (p.root ≡ root.now) × (p.number ≡ i)) }
{
    let mut number = 0;
    while !seats.is_empty() {
        let seat = seats.remove(0);
        let begun = space.copy_task(root)?;
        all.push_reserved(pass_of(seat, space, begun, number));
        number += 1;
    }
    Ok(all)
}

impl<'a, S: Space> Cell<'a, S> {
    /// The cell of a search whose root alone is live, and its passes in the order of their numbers, from 0 on.
    pub fn new(
        alloc: Global,
        space: &'a S,
        root: S::Task,
        seats: u32,
    ) -> Result<(Cell<'a, S>, Vec<Pass<'a, S>>), AllocError>
        requires { (1 ≤ seats) × (seats ≤ 65) }
        ensures count { IfOk result (λ t. vec_len t.1 ≡ seats) }
        ensures passes { IfOk result (λ t. ArePasses t.0 t.1.items) }
        ensures begun { IfOk result (λ t. (i : ℕ) (p : _) → slice_get t.1.items i ≡ Some p → (pass_space p ≡ space.now) × (pass_root p ≡ root) × (pass_journal p ≡ [])) }
    {
        let all = Vec::with_capacity(alloc, seats as usize)?;
        let begun = space.copy_task(&root)?;
        let book = open(alloc, space, begun)?;
        match Turn::new(alloc, book, seats) {
            Ok((turn, rights)) => {
                let passes = passes_of(all, space, &root, rights)?;
                Ok((Cell { turn }, passes))
            }
            Err(_) => Err(AllocError),
        }
    }
}
