//! Reads a text.
ghost use Rattle.std.specs.Prelude.{◌≡◌, ◌≤◌, ◌<◌, ◌^◌, All, IfOk, IfErr, IsTrue, length, count_by};
ghost use Rattle.pp_algebra.specs.Canon.{has};
ghost use Rattle.pp_algebra.specs.Texts.{same_text};
ghost use Rattle.pp_language.specs.Tokens.{IsTokenOf};
ghost use Rattle.pp_language.specs.Limits.{Writes};
ghost use Rattle.pp_term.specs.WellFormed.{IsClause, IsQuery};
ghost use Rattle.pp_parse.specs.Words.{texts_in};
ghost use Rattle.pp_read.specs.Sizes.{IsCounted, is_annotated};
ghost use Rattle.pp_read.specs.Programs.{written_of, IsFaultOf, list_words, AreAllRead, IsEarlyFault};

use crate::fault::ReadFault;
use crate::program::{ClauseList, Program};
use crate::progress::Progress;
use crate::sentence::read_sentence;
use pp_lex::{Sentence, Tail, sentences};
use pp_parse::intern_names;
use pp_term::Names;
use std::alloc::Global;

/// What all sentences write. A sentence that is no statement, or that stands behind the query, is a fault.
fn read_all(
    alloc: Global,
    text: &[u8],
    list: &[Sentence],
    names: &Names,
) -> Result<Progress, ReadFault>
    requires tokens { All (λ s. All (IsTokenOf text.now) s.tokens) list.now }
    requires few { All (λ s. length s.tokens < 2 ^ 32) list.now }
    requires count { length list.now < 2 ^ 32 }
    requires names { All (λ ws. All (λ x. IsTrue (has same_text names.now x)) (texts_in ws)) (list_words text.now list.now) }
    ensures read { IfOk result (AreAllRead names.now (list_words text.now list.now)) }
    ensures fault { IfErr result (IsEarlyFault (list_words text.now list.now)) }
{
    let mut progress = Progress::new(alloc);
    for (i, sentence) in list.iter().enumerate() {
        if progress.asked {
            return Err(ReadFault::Syntax(i as u32 + 1));
        }
        let tokens = sentence.tokens.as_slice();
        let Some(said) = read_sentence(alloc, text, tokens, names, progress.clauses.len())? else {
            return Err(ReadFault::Syntax(i as u32 + 1));
        };
        progress.take(said)?;
    }
    Ok(progress)
}

/// The program that a text of at most 4,194,304 bytes writes.
pub fn read(alloc: Global, text: &[u8]) -> Result<Program, ReadFault>
    requires { length text.now ≤ 4194304 }
    ensures written { IfOk result (λ p. Writes text.now (written_of p)) }
    ensures clauses { IfOk result (λ p. All IsClause p.clauses) }
    ensures counted { IfOk result (λ p. All IsCounted p.clauses) }
    ensures few_variables { IfOk result (λ p. All (λ c. c.vars ≤ 255) p.clauses) }
    ensures few_clauses { IfOk result (λ p. length p.clauses ≤ 65535) }
    ensures query { IfOk result (λ p. IsQuery p.query) }
    ensures query_variables { IfOk result (λ p. p.query.vars ≤ 10000) }
    ensures query_goals { IfOk result (λ p. count_by is_annotated p.query.items ≤ 1000) }
    ensures fault { IfErr result (IsFaultOf text.now) }
{
    let found = sentences(alloc, text)?;
    let list = found.list.as_slice();
    let names = intern_names(alloc, text, list)?;
    let Progress {
        clauses,
        query,
        asked,
        passed,
    } = read_all(alloc, text, list, &names)?;
    if found.tail != Tail::Clean || !asked {
        return Err(ReadFault::Syntax(list.len() as u32 + 1));
    }
    if let Some(which) = passed {
        return Err(ReadFault::Limit(which));
    }
    let Some(query) = query else { unreachable!() };
    Ok(Program {
        names,
        clauses: ClauseList::from_vec(clauses),
        query,
    })
}
