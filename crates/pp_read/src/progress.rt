//! What is read of a text, sentence by sentence.
ghost use Rattle.std.specs.Prelude.{◌≡◌, List, [], ◌∷◌, ◌++◌, length, false, OnOk, Some};
ghost use Rattle.std.specs.List.{list_any};
ghost use Rattle.pp_language.specs.Texts.{Text};
ghost use Rattle.pp_language.specs.Statements.{Statement, is_query};
ghost use Rattle.pp_language.specs.Limits.{or_later};
ghost use Rattle.pp_read.specs.Sentences.{IsMade};
ghost use Rattle.pp_read.specs.Progress.{IsProgress};

use crate::sentence::Said;
use pp_language::Which;
use pp_term::{Clause, Query};
use std::alloc::{AllocError, Global};

/// What the sentences so far write: `asked` says that one of them is a query, and `passed` is the first limit that they
/// pass. Where there is one, the rest counts for nothing.
#[derive(Debug, Drop)]
pub(crate) struct Progress {
    pub clauses: Vec<Clause>,
    pub query: Option<Query>,
    pub asked: bool,
    pub passed: Option<Which>,
}

impl Progress {
    pub(crate) fn new(alloc: Global) -> Progress
        ensures { (names : List Text) → IsProgress names [] result }
    {
        Progress {
            clauses: Vec::new(alloc),
            query: None,
            asked: false,
            passed: None,
        }
    }

    /// Notes a limit, where none was passed before.
    fn pass(&mut self, which: Which)
        ensures passed { self.new.passed ≡ or_later self.old.passed (Some which) }
        ensures clauses { self.new.clauses ≡ self.old.clauses }
        ensures query { self.new.query ≡ self.old.query }
        ensures asked { self.new.asked ≡ self.old.asked }
    {
        match self.passed {
            Some(_) => {}
            None => self.passed = Some(which),
        }
    }

    /// Takes in what the next sentence writes.
    pub(crate) fn take(&mut self, said: Said) -> Result<(), AllocError>
        ensures { (names : List Text) (ss : List Statement) (s : Statement) → IsProgress names ss self.old → IsMade names (length self.old.clauses.items) s said
            → list_any is_query ss ≡ false → OnOk result (IsProgress names (ss ++ s ∷ []) self.new) }
    {
        match said {
            Said::Directive => {}
            Said::Clause(clause) => self.clauses.push(clause)?,
            Said::Query(query) => {
                self.query = Some(query);
                self.asked = true;
            }
            Said::OverClause(which) => self.pass(which),
            Said::OverQuery(which) => {
                self.asked = true;
                self.pass(which);
            }
        }
        Ok(())
    }
}
