//! Writing at several places of a list. No call takes memory.
ghost use Rattle.std.specs.Prelude.{◌≡◌, ℕ, ◌<◌, All, length, get_or, nat_eq, pos};
ghost use Rattle.pp_algebra.specs.Canon.{Distinct};
ghost use Rattle.pp_algebra.specs.Rows.{domain_at};
ghost use Rattle.pp_algebra.specs.Terms.{int};
ghost use Rattle.pp_row.specs.Columns.{sets_of};
ghost use Rattle.pp_store.specs.Written.{written};

use pp_domain::Domain;
use pp_term::Term;
use std::mem::swap;

/// Puts terms at these places.
pub(crate) fn write_terms(columns: &mut Vec<Term>, places: &[u32], terms: Vec<Term>)
    requires within { All (λ k. k < length columns.old.items) places.now }
    requires many { length terms.items ≡ length places.now }
    requires distinct { Distinct nat_eq places.now }
    ensures count { length columns.new.items ≡ length columns.old.items }
    ensures written { (k : ℕ) → k < length columns.old.items
        → get_or columns.new.items k (int (pos 0))
        ≡ written places.now (λ i. get_or terms.items i (int (pos 0))) (λ i. get_or columns.old.items i (int (pos 0)))
        k }
{
    let mut terms = terms;
    for (i, place) in places.iter().enumerate() {
        swap(&mut columns[*place as usize], &mut terms[i]);
    }
}

/// Puts domains at these places.
pub(crate) fn write_domains(
    domains: &mut Vec<Option<Domain>>,
    places: &[u32],
    more: Vec<Option<Domain>>,
)
    requires within { All (λ k. k < length domains.old.items) places.now }
    requires many { length more.items ≡ length places.now }
    requires distinct { Distinct nat_eq places.now }
    ensures count { length domains.new.items ≡ length domains.old.items }
    ensures written { (v : ℕ) → domain_at (sets_of domains.new.items) v
        ≡ written places.now (domain_at (sets_of more.items)) (domain_at (sets_of domains.old.items)) v }
{
    let mut more = more;
    for (i, place) in places.iter().enumerate() {
        swap(&mut domains[*place as usize], &mut more[i]);
    }
}
