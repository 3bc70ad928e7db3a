//! What a built-in decides about its arguments.
ghost use Rattle.std.specs.Prelude.{◌≡◌, ℕ, ℤ, Bool, true, false, map, List, [], ◌∷◌, drop, ◌+ℤ◌, ◌-ℤ◌, ◌*ℤ◌, int_lt, int_le, not, ◌&&◌, FitsSigned};
ghost use Rattle.std.specs.Ordering.{int_eq};
ghost use Rattle.std.specs.Option.{SomeIff};
ghost use Rattle.std.specs.Int.{w64};
ghost use Rattle.pp_sld.specs.BuiltIns.{has_other, when, bind_within, compare, decide_plus, decide_times, decide_indomain, is_integer, decide as decide_of};
ghost use Rattle.pp_row.specs.Givens.{given_of};
ghost use Rattle.pp_tests.specs.Decisions.{test_of, decision_of};

use crate::{Decision, Test};
use pp_term::Given;

/// The integers of the language.
const LEAST: i64 = -1_000_000_000_000;

const GREATEST: i64 = 1_000_000_000_000;

/// Whether one of the values is an atom or a compound.
fn has_other(values: &[Given]) -> bool
    ensures { result ≡ has_other (map given_of values.now) }
{
    for value in values {
        if *value == Given::Other {
            return true;
        }
    }
    false
}

/// `Hold` where the test is true.
fn when(holds: bool) -> Decision
    ensures { decision_of result ≡ when holds }
{
    if holds {
        Decision::Hold
    } else {
        Decision::Fail
    }
}

/// Binds the place to a number, where it is an integer of the language. `None` is a number that no `i64` holds.
fn bind_within(place: usize, number: Option<i64>) -> Decision
    ensures { (n : ℤ) → SomeIff number (FitsSigned w64 n) n → decision_of result ≡ bind_within place n }
{
    match number {
        Some(n) if LEAST <= n && n <= GREATEST => Decision::Bind(place, n),
        _ => Decision::Fail,
    }
}

/// Whether a number is this integer. `None` is a number that no `i64` holds.
fn is(number: Option<i64>, integer: i64) -> bool
    ensures { (n : ℤ) → SomeIff number (FitsSigned w64 n) n → result ≡ int_eq n integer }
{
    match number {
        Some(n) => n == integer,
        None => false,
    }
}

/// Whether a number is this integer, and an integer of the language.
fn is_within(number: Option<i64>, integer: i64) -> bool
    ensures { (n : ℤ) → SomeIff number (FitsSigned w64 n) n → result ≡ (is_integer n && int_eq n integer) }
{
    LEAST <= integer && integer <= GREATEST && is(number, integer)
}

/// Two integers, the first less than the second.
fn decide_less(values: &[Given]) -> Decision
    ensures { decision_of result ≡ compare int_lt (map given_of values.now) }
{
    match values {
        [Given::Int(left), Given::Int(right)] => when(*left < *right),
        _ => Decision::Wait,
    }
}

/// Two integers, the first at most the second.
fn decide_at_most(values: &[Given]) -> Decision
    ensures { decision_of result ≡ compare int_le (map given_of values.now) }
{
    match values {
        [Given::Int(left), Given::Int(right)] => when(*left <= *right),
        _ => Decision::Wait,
    }
}

/// Two equal integers.
fn decide_equal(values: &[Given]) -> Decision
    ensures { decision_of result ≡ compare int_eq (map given_of values.now) }
{
    match values {
        [Given::Int(left), Given::Int(right)] => when(*left == *right),
        _ => Decision::Wait,
    }
}

/// Two different integers.
fn decide_differ(values: &[Given]) -> Decision
    ensures { decision_of result ≡ compare (λ n m. not (int_eq n m)) (map given_of values.now) }
{
    match values {
        [Given::Int(left), Given::Int(right)] => when(*left != *right),
        _ => Decision::Wait,
    }
}

/// The sum of two integers is the third; of three arguments the one that isn't known is computed.
fn plus(x: Given, y: Given, z: Given) -> Decision
    ensures { decision_of result ≡ decide_plus (given_of x ∷ given_of y ∷ given_of z ∷ []) }
{
    match (x, y, z) {
        (Given::Int(x), Given::Int(y), Given::Int(z)) => when(is(x.checked_add(y), z)),
        (Given::Int(x), Given::Int(y), Given::Ranged | Given::Free | Given::Other) => {
            bind_within(2, x.checked_add(y))
        }
        (Given::Int(x), Given::Ranged | Given::Free | Given::Other, Given::Int(z)) => {
            bind_within(1, z.checked_sub(x))
        }
        (Given::Ranged | Given::Free | Given::Other, Given::Int(y), Given::Int(z)) => {
            bind_within(0, z.checked_sub(y))
        }
        _ => Decision::Wait,
    }
}

/// The product of two integers is the third, and an integer of the language; only the third is ever computed.
fn times(x: Given, y: Given, z: Given) -> Decision
    ensures { decision_of result ≡ decide_times (given_of x ∷ given_of y ∷ given_of z ∷ []) }
{
    match (x, y, z) {
        (Given::Int(x), Given::Int(y), Given::Int(z)) => when(is_within(x.checked_mul(y), z)),
        (Given::Int(x), Given::Int(y), Given::Ranged | Given::Free | Given::Other) => {
            bind_within(2, x.checked_mul(y))
        }
        _ => Decision::Wait,
    }
}

/// `plus` of three arguments.
fn decide_plus(values: &[Given]) -> Decision
    ensures { decision_of result ≡ decide_plus (map given_of values.now) }
{
    match values {
        [x, y, z] => plus(*x, *y, *z),
        _ => Decision::Wait,
    }
}

/// `times` of three arguments.
fn decide_times(values: &[Given]) -> Decision
    ensures { decision_of result ≡ decide_times (map given_of values.now) }
{
    match values {
        [x, y, z] => times(*x, *y, *z),
        _ => Decision::Wait,
    }
}

/// An integer holds, and a variable with a finite domain splits.
fn decide_indomain(values: &[Given]) -> Decision
    ensures { decision_of result ≡ decide_indomain (map given_of values.now) }
{
    match values {
        [Given::Int(_)] => Decision::Hold,
        [Given::Ranged] => Decision::Split,
        _ => Decision::Wait,
    }
}

/// What a built-in decides, seeing each of its arguments as an integer, a variable with a finite domain, a variable
/// of domain `any`, or an atom or compound. Values of another number than the built-in has arguments wait.
pub fn decide(test: Test, values: &[Given]) -> Decision
    ensures { decision_of result ≡ decide_of (test_of test) (map given_of values.now) }
{
    if has_other(values) {
        return Decision::Fail;
    }
    match test {
        Test::Less => decide_less(values),
        Test::AtMost => decide_at_most(values),
        Test::Equal => decide_equal(values),
        Test::Differ => decide_differ(values),
        Test::Plus => decide_plus(values),
        Test::Times => decide_times(values),
        Test::Indomain => decide_indomain(values),
    }
}
