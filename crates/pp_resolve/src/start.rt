//! Where a search begins.
ghost use Rattle.std.specs.Prelude.{◌≡◌, [], IfOk};
ghost use Rattle.pp_algebra.specs.Rows.{AreWide};
ghost use Rattle.pp_algebra.specs.Terms.{count};
ghost use Rattle.pp_sld.specs.Leaves.{root};
ghost use Rattle.pp_row.specs.Columns.{sets_of, trees_of};
ghost use Rattle.pp_row.specs.Reading.{IsForest, forest};
ghost use Rattle.pp_term.specs.Meanings.{shape_of};
ghost use Rattle.pp_term.specs.WellFormed.{arguments_of};
ghost use Rattle.pp_unify.specs.States.{present};
ghost use Rattle.pp_resolve.specs.Starting.{free_row};
ghost use Rattle.pp_resolve.specs.Shown.{IsNamed};
ghost use Rattle.pp_resolve.specs.Engines.{place_of, IsGood};

use crate::engine::Engine;
use crate::history::{Front, History, Rest, Waits};
use crate::root::Root;
use pp_clause::Clauses;
use pp_domain::Domain;
use pp_row::{Cell, Row, Term, copy_domain};
use pp_term::Shape;
use pp_unify::Bindings;
use std::alloc::{AllocError, Global};

/// Free variables of these domains.
fn free_bindings(alloc: Global, domains: &[Option<Domain>]) -> Result<Bindings, AllocError>
    requires { AreWide (sets_of domains.now) }
    ensures { IfOk result (λ b. present b ≡ free_row (sets_of domains.now)) }
{
    let mut bindings = Bindings::new(alloc);
    for domain in domains {
        bindings.add(copy_domain(domain)?)?;
    }
    Ok(bindings)
}

/// The cells of these terms, one behind the other.
fn cells_of(alloc: Global, terms: &[Term]) -> Result<Vec<Cell>, AllocError>
    ensures whole { IfOk result (λ cells. IsForest cells.items) }
    ensures terms { IfOk result (λ cells. forest cells.items ≡ trees_of terms.now) }
{
    let mut cells = Vec::new(alloc);
    for term in terms {
        cells.extend_from_slice(term.cells())?;
    }
    Ok(cells)
}

/// The number of the predicate that is called; a built-in has none.
fn predicate_of(clauses: &Clauses, shape: Shape) -> u32
    ensures { IsNamed clauses.now result shape }
{
    match shape {
        Shape::User(pred) => clauses.predicate(pred),
        _ => 0,
    }
}

impl<'a> Engine<'a> {
    /// At the root of the search of a goal under its face.
    pub(crate) fn start(
        alloc: Global,
        clauses: &'a Clauses,
        shape: Shape,
        face: &Row,
        depth: u32,
    ) -> Result<Engine<'a>, AllocError>
        requires arguments { count face.now.columns ≡ arguments_of shape }
        ensures good { IfOk result IsGood }
        ensures clauses { IfOk result (λ e. e.clauses.now ≡ clauses.now) }
        ensures here { IfOk result (λ e. (place_of e).here ≡ root (shape_of shape) face.now depth) }
        ensures above { IfOk result (λ e. (place_of e).above ≡ []) }
    {
        let bindings = free_bindings(alloc, face.domains())?;
        let cells = cells_of(alloc, face.columns())?;
        let columns = face.call()?;
        let predicate = predicate_of(clauses, shape);
        let since = bindings.mark();
        Ok(Engine {
            clauses,
            root: Root {
                shape,
                predicate,
                cells,
            },
            columns,
            history: History::new(alloc, bindings),
            front: Front {
                waiting: 0,
                waits: Waits { since, upto: 0 },
                rest: Rest {
                    body: None,
                    from: 0,
                    to: 1,
                    first: 0,
                    next: 0,
                },
                depth,
                selected: None,
            },
        })
    }
}
