// The lines of the endings that show no store.
ghost use Rattle.std.specs.Prelude.{◌≡◌, IfOk};
ghost use Rattle.pp_language.specs.Answers.{which_name, limit_text, syntax_text};

use itoa::Buffer;
use pp_language::Which;
use std::alloc::{AllocError, Global};

/// The line of words that are not valid.
pub(crate) const USAGE: &[u8] = b"usage: propia run | alone | make N\n";

/// The line of a text of more bytes than are read.
pub(crate) const TOO_LONG: &[u8] = b"limit: text\n";

/// The line of a run that failed.
pub(crate) const NO: &[u8] = b"no\n";

/// The line of a text that passes a limit.
pub(crate) fn limit_line(which: Which) -> &'static [u8]
    ensures { result.now ≡ limit_text (which_name which) }
{
    match which {
        Which::Clauses => b"limit: clauses\n",
        Which::Arity => b"limit: arity\n",
        Which::Variables => b"limit: variables\n",
        Which::Goals => b"limit: goals\n",
    }
}

/// The line of a text whose first fault is in this sentence.
pub(crate) fn syntax_line(alloc: Global, sentence: u32) -> Result<Vec<u8>, AllocError>
    ensures { IfOk result (λ bytes. bytes.items ≡ syntax_text sentence) }
{
    let mut digits = Buffer::new();
    let mut line = Vec::from_slice(alloc, b"syntax in sentence ")?;
    line.extend_from_slice(digits.format(sentence).as_bytes())?;
    line.push(b'\n')?;
    Ok(line)
}
