//! What a sentence writes.
ghost use Rattle.std.specs.Prelude.{◌≡◌, ◌+◌, ◌<◌, ◌^◌, All, IfOk, IsTrue, MatchOption, length};
ghost use Rattle.pp_algebra.specs.Canon.{has};
ghost use Rattle.pp_algebra.specs.Texts.{same_text};
ghost use Rattle.pp_language.specs.Tokens.{IsTokenOf};
ghost use Rattle.pp_language.specs.Statements.{Statement, Says};
ghost use Rattle.pp_parse.specs.Words.{words_of, texts_in};
ghost use Rattle.pp_parse.specs.Parsed.{IsReady};
ghost use Rattle.pp_read.specs.Sentences.{IsMade, IsSaid};

use crate::limits::{clause_limit, query_limit};
use pp_build::{clause, query, renumbered};
use pp_language::{Token, Which};
use pp_parse::{Layout, Parsed, Part, Variables, parse};
use pp_term::{Clause, Names, Query};
use std::alloc::{AllocError, Global};

/// What a sentence writes. A clause or a query that passes a limit writes nothing.
#[derive(Debug, Drop)]
pub(crate) enum Said {
    Directive,
    Clause(Clause),
    Query(Query),
    OverClause(Which),
    OverQuery(Which),
}

/// What a statement writes, with so many clauses before it.
fn make(
    alloc: Global,
    names: &Names,
    variables: &Variables,
    parts: &[Part],
    layout: Layout,
    clauses: usize,
) -> Result<Said, AllocError>
    requires few { length variables.now.named + variables.now.blanks < 2 ^ 32 }
    requires known { All (λ x. IsTrue (has same_text names.now x)) variables.now.named }
    requires ready { IsReady names.now variables.now.named variables.now.blanks parts.now layout }
    ensures { (r : IsReady names.now variables.now.named variables.now.blanks parts.now layout) → IfOk result (IsMade names.now clauses r.statement) }
{
    match layout {
        Layout::Directive => Ok(Said::Directive),
        Layout::Clause(entries) => match clause_limit(clauses, parts, variables) {
            Some(which) => Ok(Said::OverClause(which)),
            None => {
                let vars = variables.named.len() as u32 + variables.blanks;
                let written = clause(alloc, names, parts, entries, vars)?;
                Ok(Said::Clause(renumbered(alloc, written)?))
            }
        },
        Layout::Query(entries) => match query_limit(parts, variables, entries.as_slice()) {
            Some(which) => Ok(Said::OverQuery(which)),
            None => Ok(Said::Query(query(alloc, names, variables, parts, entries)?)),
        },
    }
}

/// What a sentence writes, with so many clauses before it; `None` exactly where it is no statement.
pub(crate) fn read_sentence(
    alloc: Global,
    text: &[u8],
    tokens: &[Token],
    names: &Names,
    clauses: usize,
) -> Result<Option<Said>, AllocError>
    requires tokens { All (IsTokenOf text.now) tokens.now }
    requires few { length tokens.now < 2 ^ 32 }
    requires names { All (λ x. IsTrue (has same_text names.now x)) (texts_in (words_of text.now tokens.now)) }
    ensures { IfOk result (λ said. MatchOption said
        ((s : Statement) → Says (words_of text.now tokens.now) s → ⊥)
        (IsSaid names.now clauses (words_of text.now tokens.now))) }
{
    let Some(parsed) = parse(alloc, text, tokens, names)? else {
        return Ok(None);
    };
    let Parsed {
        variables,
        parts,
        layout,
    } = parsed;
    Ok(Some(make(alloc, names, &variables, &parts, layout, clauses)?))
}
