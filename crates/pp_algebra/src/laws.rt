//! The laws that make the definitions trustworthy.
ghost use Rattle.std.specs.Prelude.{ℕ, ◌⊎◌};
ghost use Rattle.pp_algebra.specs.Laws.{CoversItself, CoversThrough, CoversBothWays, SameIsEqual, RenamedIsSame, MembersAscend, MembersAreContained, LeastIsCanonical, LeastCovers, LeastIsLeast, LeastIsRow, LeastOfSame, LeastCommutes, LeastAssociates, LeastIsIdempotent, LeastOfMore, LeastInParts, JoinsGiveLeast, SolvedOnce, SolvedCovers, SolvedInAnyOrder, SolvedWithMore, SolvedInStages, SolvedForSome, NoneForAny, RowsSolve, PairsSolve};

/// Covering is an order: each row covers itself, what covers a covering row covers what that covers, and
/// canonical rows that cover each other are equal.
pub fn covering_is_an_order()
    ensures itself { CoversItself }
    ensures through { CoversThrough }
    ensures both_ways { CoversBothWays }
{}

/// The members of a domain are listed in ascending order, each once: exactly the integers from
/// -1,000,000,000,000 to 1,000,000,000,000 that the set contains.
pub fn members_are_listed()
    ensures ascend { MembersAscend }
    ensures contained { MembersAreContained }
{}

/// The least generalisation of rows is canonical, covers each of them, and is covered by whatever covers each
/// of them. Of rows with wide domains it has wide domains.
pub fn generalisation_is_least()
    ensures canonical { LeastIsCanonical }
    ensures covers { LeastCovers }
    ensures least { LeastIsLeast }
    ensures row { LeastIsRow }
{}

/// The least generalisation depends on which rows there are alone: not on their order, nor on how often one
/// stands in the list.
pub fn generalisation_has_no_order()
    ensures same_rows { LeastOfSame }
    ensures commutes { LeastCommutes }
    ensures associates { LeastAssociates }
    ensures idempotent { LeastIsIdempotent }
{}

/// Rows may be joined two at a time, in any order, in any grouping and with repeats: the result is the least
/// generalisation of the whole list. More rows give a more general one.
pub fn joins_give_the_least_generalisation()
    ensures joins { JoinsGiveLeast }
    ensures parts { LeastInParts }
    ensures more { LeastOfMore }
{}

/// Equations and memberships have at most one most general row.
pub fn solving_is_unique()
    ensures one_kind { SolvedOnce ℕ }
    ensures two_kinds { SolvedOnce (ℕ ⊎ ℕ) }
{}

/// Equations and memberships have a most general row, or nothing meets them, whatever the domains are.
pub fn solving_ends()
    ensures rows { RowsSolve }
    ensures pairs { PairsSolve }
{}

/// The test for equal rows passes exactly on equal rows.
pub fn same_row_is_equality()
    ensures equal { SameIsEqual }
{}

/// Which numbers the variables had before is seen nowhere in a canonical row.
pub fn numbering_forgets_the_numbers()
    ensures same { RenamedIsSame }
{}

/// A row meets equations and memberships exactly where their most general row covers it.
pub fn solving_covers_all_that_meets()
    ensures one_kind { SolvedCovers ℕ }
    ensures two_kinds { SolvedCovers (ℕ ⊎ ℕ) }
{}

/// The order of equations and memberships does not matter, nor how often one stands in the list, nor whether one
/// is added that holds already.
pub fn solving_has_no_order()
    ensures one_kind { SolvedInAnyOrder ℕ }
    ensures two_kinds { SolvedInAnyOrder (ℕ ⊎ ℕ) }
    ensures more_of_one_kind { SolvedWithMore ℕ }
    ensures more_of_two_kinds { SolvedWithMore (ℕ ⊎ ℕ) }
{}

/// Solving in two stages, the later one over the row of the first and over fresh variables, is solving at once.
pub fn solving_goes_in_stages()
    ensures one_kind { SolvedInStages ℕ ℕ }
    ensures two_kinds { SolvedInStages (ℕ ⊎ ℕ) ℕ }
{}

/// The solution for some of the columns is the solution for all of them, restricted to those.
pub fn solving_restricts()
    ensures one_kind { SolvedForSome ℕ }
    ensures two_kinds { SolvedForSome (ℕ ⊎ ℕ) }
    ensures none_of_one_kind { NoneForAny ℕ }
    ensures none_of_two_kinds { NoneForAny (ℕ ⊎ ℕ) }
{}
