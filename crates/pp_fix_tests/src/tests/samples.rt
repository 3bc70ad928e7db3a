//! Queries of texts, and what is looked at in the tests.
ghost use Rattle.std.specs.Prelude.{◌≡◌};
ghost use Rattle.pp_term.specs.WellFormed.{IsQuery};
ghost use Rattle.pp_store.specs.Kept.{IsStoreOf};

use pp_print::row_text;
use pp_read::{Program, read};
use pp_store::Store;
use pp_term::{Names, Query, Row};
use std::alloc::Global;
use std::process::Abort;

/// The query of a text without fault.
pub fn query(rt: &impl Abort, alloc: Global, text: &str) -> Query
    ensures { IsQuery result }
{
    let text = text.as_bytes();
    assert!(rt; text.len() <= 1000);
    let Program { query, .. } = read(alloc, text).expect(rt, "a text without fault");
    query
}

/// The store of a query that has one.
pub fn begun(rt: &impl Abort, alloc: Global, query: &Query) -> Store
    requires { IsQuery query.now }
    ensures { IsStoreOf query.now result }
{
    Store::begin(alloc, query)
        .expect(rt, "memory")
        .expect(rt, "a solution")
}

/// The row is written so.
pub fn expect_row(rt: &impl Abort, alloc: Global, row: &Row, wanted: &str) {
    let text = row_text(alloc, &Names::new(alloc), row).expect(rt, "memory");
    assert_eq!(rt; text.as_slice(), wanted.as_bytes());
}
