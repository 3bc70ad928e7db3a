// What is run: the text that the source has left, or a generated one.
ghost use Rattle.std.specs.Prelude.{◌≡◌, ◌≢◌, ◌≤◌, ℕ, All, length, map, IfOk, IfErr, OnErr, OnOk, IfSome, Some, []};
ghost use Rattle.pp_language.specs.Texts.{Text};
ghost use Rattle.pp_language.specs.Limits.{Writes};
ghost use Rattle.pp_language.specs.Generator.{make_text};
ghost use Rattle.pp_io.specs.Ends.{Rose};
ghost use Rattle.pp_term.specs.WellFormed.{IsClause, IsQuery};
ghost use Rattle.pp_read.specs.Programs.{written_of, IsFaultOf};
ghost use Rattle.pp_run.specs.Endings.{Replied, HasReadText, TookNothing, IsRefusal, IsOrdinary};
ghost use Rattle.pp_run.specs.Made.{IsGiven};

use crate::lines::{TOO_LONG, limit_line, syntax_line};
use crate::reply::{Reply, written};
use pp_io::{ReadError, Sink, Source, read_all};
use pp_language::{CommandKind, MAKE_LIMIT, Status, TEXT_LIMIT};
use pp_make::make_text;
use pp_read::{Program, ReadFault, read};
use std::alloc::{AllocError, Global};

/// The reply to a text that is refused for a fault or a limit.
fn refusal(alloc: Global, fault: ReadFault) -> Result<Reply, AllocError>
    ensures reply { IfOk result (λ r. (text : Text) → length text ≤ TEXT_LIMIT → IsFaultOf text fault →
        IsRefusal text r.status r.bytes.items) }
    ensures ordinary { IfOk result (λ r. IsOrdinary r.status) }
{
    match fault {
        ReadFault::Syntax(sentence) => Ok(Reply {
            status: Status::Syntax,
            bytes: syntax_line(alloc, sentence)?,
        }),
        ReadFault::Limit(which) => Ok(Reply {
            status: Status::Limit,
            bytes: Vec::from_slice(alloc, limit_line(which))?,
        }),
        ReadFault::Memory => Err(AllocError),
    }
}

/// Reads the text that the source has left. Where it is refused, that is written, and the status answered.
pub(crate) fn given<S: Source, K: Sink>(
    alloc: Global,
    source: &mut S,
    sink: &mut K,
) -> Result<Program, Status>
    ensures given { IfOk result (IsGiven (S.left source.old) (S.left source.new)) }
    ensures clauses { IfOk result (λ p. All IsClause p.clauses) }
    ensures query { IfOk result (λ p. IsQuery p.query) }
    ensures unwritten { OnOk result (sink.new ≡ sink.old) }
    ensures refused { IfErr result (λ s. IfSome (S.left source.old) (λ text.
        Replied (IsRefusal text) (K.taken sink.old) (K.taken sink.new) s)) }
    ensures no_usage { IfErr result (λ s. s ≢ Status.Usage) }
    ensures read_fault { IfErr result (λ s. s ≡ Status.ReadFault → Rose (S.faults source.old) (S.faults source.new)) }
    ensures write_fault { IfErr result (λ s. s ≡ Status.WriteFault → Rose (K.faults sink.old) (K.faults sink.new)) }
    ensures nothing_written { IfErr result (λ s. TookNothing s → sink.new ≡ sink.old) }
    ensures drained { IfErr result (λ s. HasReadText s → IfSome (S.left source.old) (λ text.
        length text ≤ TEXT_LIMIT → S.left source.new ≡ Some [])) }
{
    let text = match read_all(alloc, source, TEXT_LIMIT) {
        Ok(text) => text,
        Err(ReadError::Fault) => return Err(Status::ReadFault),
        Err(ReadError::Memory) => return Err(Status::Memory),
        Err(ReadError::TooLong) => return Err(written(sink, Status::Limit, TOO_LONG)),
    };
    let fault = match read(alloc, &text) {
        Ok(program) => return Ok(program),
        Err(fault) => fault,
    };
    match refusal(alloc, fault) {
        Ok(reply) => Err(written(sink, reply.status, &reply.bytes)),
        Err(_) => Err(Status::Memory),
    }
}

/// What the generated text writes. That it is in the grammar and within the limits is not proved, so if it were not,
/// this would be answered as want of memory.
pub(crate) fn generated(alloc: Global, number: u32) -> Result<Program, AllocError>
    requires number { (1 ≤ number) × (number ≤ MAKE_LIMIT) }
    ensures written { IfOk result (λ p. Writes (make_text number) (written_of p)) }
    ensures clauses { IfOk result (λ p. All IsClause p.clauses) }
    ensures query { IfOk result (λ p. IsQuery p.query) }
{
    let text = make_text(alloc, number)?;
    if text.len() > TEXT_LIMIT {
        return Err(AllocError);
    }
    match read(alloc, &text) {
        Ok(program) => Ok(program),
        Err(_) => Err(AllocError),
    }
}
