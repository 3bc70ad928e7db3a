//! Work to be timed: a million look-ups by first argument among 65,535 facts (`bench/clauses.sh`).
#![tactic(auto)]

ghost use Rattle.std.specs.Prelude.{All};
ghost use Rattle.pp_term.specs.WellFormed.{IsClause};

use pp_clause::{Clauses, First};
use pp_read::{Program, read};
use pp_term::Pred;
use std::alloc::{AllocError, Global};
use std::{env, io};

/// How many facts there are.
const FACTS: u32 = 65_535;

/// How often one is asked for.
const LOOK_UPS: u32 = 1_000_000;

/// How many bytes a text has at most.
const TEXT_LIMIT: usize = 4_194_304;

fn main(rt: HostRuntime) -> io::Result<()> {
    let words: Vec<String> = env::args(&rt)?.skip(1).collect(rt.alloc())?;
    let times = if words.is_empty() { 1 } else { LOOK_UPS };
    let text = facts(rt.alloc())?;
    if text.len() > TEXT_LIMIT {
        return println!(rt; "the text is too long");
    }
    match read(rt.alloc(), text.as_slice()) {
        Ok(program) => {
            let found = look_ups(rt.alloc(), &program, times)?;
            println!(rt; "{times} look-ups: {found} found")
        }
        Err(fault) => println!(rt; "{fault}"),
    }
}

/// The facts `p(0).` and so on, and a query.
fn facts(alloc: Global) -> Result<Vec<u8>, AllocError> {
    let mut text = Vec::new(alloc);
    for number in 0..FACTS {
        let fact = format!(in alloc; "p({number}).\n")?;
        text.extend_from_slice(fact.as_bytes())?;
    }
    text.extend_from_slice(b"?- p(X) infers most.\n")?;
    Ok(text)
}

/// How many of these look-ups find a fact, one after another through all of them.
fn look_ups(alloc: Global, program: &Program, times: u32) -> Result<u32, AllocError>
    requires { All IsClause program.now.clauses }
{
    let mut table = Clauses::new(alloc);
    for clause in program.clauses.as_slice() {
        table.add(clause.copy()?)?;
    }
    let name = program.names.find(b"p").ok_or(AllocError)?;
    let predicate = table.predicate(Pred { name, arity: 1 });
    let mut found = 0u32;
    for time in 0..times {
        let first = First::Int(i64::from(time % FACTS));
        if table.place_from(predicate, first, 0).is_some() {
            found = found.wrapping_add(1);
        }
    }
    Ok(found)
}
