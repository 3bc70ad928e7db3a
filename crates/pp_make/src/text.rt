//! The whole text.
ghost use Rattle.std.specs.Prelude.{◌≡◌, ◌≤◌, IfOk};
ghost use Rattle.pp_language.specs.Generator.{make_text};

use crate::adders::push_adders;
use pp_language::MAKE_LIMIT;
use std::alloc::{AllocError, Global};

/// The clauses, and the beginning of the query.
const BEGIN: &[u8] = b"add(0,0,0,0,0).\n\
add(0,0,1,1,0).\n\
add(0,1,0,1,0).\n\
add(0,1,1,0,1).\n\
add(1,0,0,1,0).\n\
add(1,0,1,0,1).\n\
add(1,1,0,0,1).\n\
add(1,1,1,1,1).\n\
six(0).\n\
six(1).\n\
six(2).\n\
six(3).\n\
six(4).\n\
six(5).\n\
four(P,Q,R,T) :- six(P), six(Q), P #\\= Q, six(R), P #\\= R, Q #\\= R, six(T), P #\\= T, Q #\\= T, R #\\= T.\n\
?- C1 = 0,\n";

/// The end of the query.
const END: &[u8] = b"four(P,Q,R,T) infers most.\n";

/// The generated text of this number: so many adders, each with a goal, and one goal for four different values.
pub fn make_text(alloc: Global, number: u32) -> Result<Vec<u8>, AllocError>
    requires { (1 ≤ number) × (number ≤ MAKE_LIMIT) }
    ensures { IfOk result (λ text. text.items ≡ make_text number) }
{
    let mut text = Vec::from_slice(alloc, BEGIN)?;
    push_adders(&mut text, number)?;
    text.extend_from_slice(END)?;
    Ok(text)
}
