//! Bindings: equations, domains, going back, and deep terms.
use super::samples::{A, B, F, G, X, Y, Z};
use super::solving::{
    expect_given, expect_headed, expect_narrowed, expect_shown, expect_size, expect_unified,
    expect_unified_from, over, variables,
};
use pp_term::{Cell, Given};
use std::alloc::Global;
use std::process::Abort;

#[test]
fn arguments_are_unified(rt: HostRuntime) {
    let alloc = rt.alloc();
    let mut bindings = variables(&rt, alloc, &[None, None]);
    expect_unified(&rt, alloc, &mut bindings, &[F, X, B], &[F, A, Y], true);
    expect_shown(&rt, alloc, &bindings, &[&[X], &[Y]], &[&[A], &[B]]);
    assert_eq!(rt; bindings.len(), 2);
}

#[test]
fn no_term_equals_a_part_of_itself(rt: HostRuntime) {
    let alloc = rt.alloc();
    let mut bindings = variables(&rt, alloc, &[None]);
    let mark = bindings.mark();
    expect_unified(&rt, alloc, &mut bindings, &[X], &[G, X], false);
    bindings.undo(mark);
    expect_given(&rt, alloc, &bindings, &[X], Given::Free);
}

#[test]
fn a_circle_through_two_variables_is_refused(rt: HostRuntime) {
    let alloc = rt.alloc();
    let mut bindings = variables(&rt, alloc, &[None, None]);
    expect_unified(&rt, alloc, &mut bindings, &[X], &[G, Y], true);
    expect_unified(&rt, alloc, &mut bindings, &[Y], &[X], false);
}

#[test]
fn domains_meet(rt: HostRuntime) {
    let alloc = rt.alloc();
    let mut bindings = variables(&rt, alloc, &[Some((1, 3)), Some((3, 5))]);
    let mark = bindings.mark();
    expect_unified(&rt, alloc, &mut bindings, &[X], &[Y], true);
    expect_given(&rt, alloc, &bindings, &[X], Given::Int(3));
    expect_given(&rt, alloc, &bindings, &[Y], Given::Int(3));
    bindings.undo(mark);
    expect_given(&rt, alloc, &bindings, &[X], Given::Ranged);
    expect_size(&rt, alloc, &bindings, &[Y], Some(3));
}

#[test]
fn a_chain_has_the_domain_of_all(rt: HostRuntime) {
    let alloc = rt.alloc();
    let mut bindings = variables(&rt, alloc, &[Some((1, 6)), None, Some((4, 9))]);
    expect_unified(&rt, alloc, &mut bindings, &[X], &[Y], true);
    expect_size(&rt, alloc, &bindings, &[Y], Some(6));
    expect_unified(&rt, alloc, &mut bindings, &[Z], &[Y], true);
    expect_size(&rt, alloc, &bindings, &[X], Some(3));
    expect_narrowed(&rt, alloc, &mut bindings, 1, (6, 20), true);
    expect_given(&rt, alloc, &bindings, &[Z], Given::Int(6));
    expect_given(&rt, alloc, &bindings, &[X], Given::Int(6));
}

#[test]
fn domains_apart_have_no_value(rt: HostRuntime) {
    let alloc = rt.alloc();
    let mut bindings = variables(&rt, alloc, &[Some((1, 3)), Some((4, 9))]);
    let mark = bindings.mark();
    expect_unified(&rt, alloc, &mut bindings, &[X], &[Y], false);
    bindings.undo(mark);
    expect_unified(&rt, alloc, &mut bindings, &[X], &[Cell::Int(4)], false);
    bindings.undo(mark);
    expect_unified(&rt, alloc, &mut bindings, &[G, X], &[G, A], false);
    bindings.undo(mark);
    expect_unified(&rt, alloc, &mut bindings, &[X], &[Cell::Int(2)], true);
}

#[test]
fn an_atom_is_in_no_domain(rt: HostRuntime) {
    let alloc = rt.alloc();
    let mut bindings = variables(&rt, alloc, &[None]);
    expect_unified(&rt, alloc, &mut bindings, &[X], &[A], true);
    expect_narrowed(&rt, alloc, &mut bindings, 0, (1, 3), false);
}

#[test]
fn a_domain_is_narrowed_and_undone(rt: HostRuntime) {
    let alloc = rt.alloc();
    let mut bindings = variables(&rt, alloc, &[Some((1, 3)), None]);
    expect_size(&rt, alloc, &bindings, &[Y], None);
    let mark = bindings.mark();
    expect_narrowed(&rt, alloc, &mut bindings, 0, (2, 9), true);
    expect_narrowed(&rt, alloc, &mut bindings, 1, (2, 9), true);
    expect_size(&rt, alloc, &bindings, &[X], Some(2));
    expect_size(&rt, alloc, &bindings, &[Y], Some(8));
    expect_narrowed(&rt, alloc, &mut bindings, 0, (3, 3), true);
    expect_given(&rt, alloc, &bindings, &[X], Given::Int(3));
    bindings.undo(mark);
    expect_size(&rt, alloc, &bindings, &[X], Some(3));
    expect_given(&rt, alloc, &bindings, &[Y], Given::Free);
}

#[test]
fn turned_arguments_are_one_variable(rt: HostRuntime) {
    let alloc = rt.alloc();
    let mut bindings = variables(&rt, alloc, &[None, None]);
    expect_unified(&rt, alloc, &mut bindings, &[F, X, Y], &[F, Y, X], true);
    expect_shown(&rt, alloc, &bindings, &[&[X], &[Y]], &[&[X], &[X]]);
}

#[test]
fn marks_are_nested(rt: HostRuntime) {
    let alloc = rt.alloc();
    let mut bindings = variables(&rt, alloc, &[None, None]);
    let outer = bindings.mark();
    expect_unified(&rt, alloc, &mut bindings, &[X], &[A], true);
    let inner = bindings.mark();
    expect_unified(&rt, alloc, &mut bindings, &[Y], &[B], true);
    expect_shown(&rt, alloc, &bindings, &[&[X], &[Y]], &[&[A], &[B]]);
    bindings.undo(inner);
    expect_shown(&rt, alloc, &bindings, &[&[X], &[Y]], &[&[A], &[X]]);
    bindings.undo(outer);
    expect_shown(&rt, alloc, &bindings, &[&[X], &[Y]], &[&[X], &[Y]]);
    assert_eq!(rt; bindings.mark(), outer);
}

#[test]
fn a_spoiled_state_is_undone(rt: HostRuntime) {
    let alloc = rt.alloc();
    let mut bindings = variables(&rt, alloc, &[None]);
    let mark = bindings.mark();
    expect_unified(&rt, alloc, &mut bindings, &[F, X, A], &[F, B, B], false);
    bindings.undo(mark);
    expect_unified(&rt, alloc, &mut bindings, &[F, X, A], &[F, A, X], true);
    expect_shown(&rt, alloc, &bindings, &[&[X]], &[&[A]]);
}

#[test]
fn variables_added_since_are_undone(rt: HostRuntime) {
    let alloc = rt.alloc();
    let mut bindings = variables(&rt, alloc, &[None]);
    let mark = bindings.mark();
    assert!(rt; bindings.add(None) == Ok(1));
    bindings.undo(mark);
    assert_eq!(rt; bindings.len(), 1);
    assert!(rt; bindings.add(None) == Ok(1));
}

#[test]
fn a_head_is_counted_from_its_first_variable(rt: HostRuntime) {
    let alloc = rt.alloc();
    let mut bindings = variables(&rt, alloc, &[None, None, None]);
    expect_headed(&rt, alloc, &mut bindings, &[F, X, A], &[F, B, Y], 1);
    expect_shown(
        &rt,
        alloc,
        &bindings,
        &[&[X], &[Y], &[Z]],
        &[&[B], &[X], &[A]],
    );
    expect_headed(&rt, alloc, &mut bindings, &[G, Z], &[X], 1);
    expect_shown(&rt, alloc, &bindings, &[&[Y]], &[&[G, A]]);
}

#[test]
fn two_terms_are_counted_from_their_first_variables(rt: HostRuntime) {
    let alloc = rt.alloc();
    let mut bindings = variables(&rt, alloc, &[None, None, None, None]);
    let last = Cell::Var(3);
    expect_unified_from(&rt, alloc, &mut bindings, (&[F, X, A], 1), (&[F, B, X], 3));
    expect_shown(
        &rt,
        alloc,
        &bindings,
        &[&[X], &[Y], &[last]],
        &[&[X], &[B], &[A]],
    );
}

#[test]
fn many_variables_are_added_at_once(rt: HostRuntime) {
    let mut bindings = variables(&rt, rt.alloc(), &[None]);
    let mark = bindings.mark();
    assert!(rt; bindings.add_many(3) == Ok(1));
    assert_eq!(rt; bindings.len(), 4);
    bindings.undo(mark);
    assert_eq!(rt; bindings.len(), 1);
}

#[test]
fn variables_are_made_equal(rt: HostRuntime) {
    let alloc = rt.alloc();
    let mut bindings = variables(&rt, alloc, &[None, None]);
    expect_unified(&rt, alloc, &mut bindings, &[Y], &[A], true);
    if bindings.len() == 2 {
        assert!(rt; bindings.unify_variables(0, 1) == Ok(true));
    }
    expect_shown(&rt, alloc, &bindings, &[&[X]], &[&[A]]);
}

#[test]
fn a_kept_term_is_a_variable(rt: HostRuntime) {
    let alloc = rt.alloc();
    let mut bindings = variables(&rt, alloc, &[None, None]);
    let term = over(&rt, alloc, &bindings, &[F, X, A], 1);
    assert!(rt; bindings.keep(&term, 1) == Ok(2));
    expect_unified(&rt, alloc, &mut bindings, &[Z], &[F, B, X], true);
    expect_shown(
        &rt,
        alloc,
        &bindings,
        &[&[X], &[Y], &[Z]],
        &[&[A], &[B], &[F, B, A]],
    );
}

#[test]
fn a_copy_keeps_the_states(rt: HostRuntime) {
    let alloc = rt.alloc();
    let mut bindings = variables(&rt, alloc, &[None]);
    let mark = bindings.mark();
    expect_unified(&rt, alloc, &mut bindings, &[X], &[A], true);
    let mut copy = bindings.copy().expect(&rt, "memory");
    copy.undo(mark);
    expect_given(&rt, alloc, &copy, &[X], Given::Free);
    expect_given(&rt, alloc, &bindings, &[X], Given::Other);
}

/// A term of one argument in one argument, so deep, around this cell.
fn deep(rt: &impl Abort, alloc: Global, last: Cell) -> Vec<Cell> {
    let mut cells = vec![in alloc; G; 200_000].expect(rt, "memory");
    cells.push(last).expect(rt, "memory");
    cells
}

#[test]
fn deep_terms_take_no_stack(rt: HostRuntime) {
    let alloc = rt.alloc();
    let mut bindings = variables(&rt, alloc, &[None, None]);
    let open = deep(&rt, alloc, X);
    let closed = deep(&rt, alloc, A);
    expect_unified(&rt, alloc, &mut bindings, &open, &closed, true);
    expect_shown(&rt, alloc, &bindings, &[&[X]], &[&[A]]);
    expect_unified(&rt, alloc, &mut bindings, &[Y], &open, true);
    expect_shown(&rt, alloc, &bindings, &[&[Y]], &[&closed]);
    expect_unified(&rt, alloc, &mut bindings, &open, &[B], false);
}
