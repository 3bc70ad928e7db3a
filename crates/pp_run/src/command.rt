// The commands of the program, and the command `alone`, which returns.
ghost use Rattle.std.specs.Prelude.{◌≡◌, ◌≢◌, ℕ, ◌≤◌, All, map, length, Some, IfSome, string_bytes, []};
ghost use Rattle.pp_language.specs.declared.command.Command.{Command as CommandValue};
ghost use Rattle.pp_language.specs.Commands.{AreWordsOf, AreWordsOfAlone};
ghost use Rattle.pp_language.specs.Generator.{make_text};
ghost use Rattle.pp_propagation.specs.Watchers.{HasRoom};
ghost use Rattle.pp_propagation.specs.Replies.{IsReply, IsUnserved, IsUsage, IsReplyToText, IsSummary, IsOutOfMemory};
ghost use Rattle.pp_io.specs.Ends.{Rose};
ghost use Rattle.pp_run.specs.Endings.{Replied, HasRead, HasReadText, IsWordsEnd, IsRunEnd, TookNothing};
ghost use Rattle.pp_run.specs.Made.{HasNoted};
ghost use Rattle.pp_run.specs.Refusals.{HasSyntaxFault, PassesLimit};

use crate::begin::{generated, given};
use crate::finish::{finish_make, finish_text};
use crate::lines::USAGE;
use crate::reply::written;
use crate::run::{run_alone, run_by};
use crate::words::{command_of, command_of_alone};
use pp_io::{Sink, Source};
use pp_language::{Command, CommandKind, MAKE_LIMIT, Status, TEXT_LIMIT, WORKER_LIMIT};
use pp_read::Program;
use pp_watch::Watcher;
use pp_worker::Gate;
use std::alloc::Global;
use std::sync::Wait;
use std::thread::Threads;

/// Serves the command `alone`: reads the text that the source has left, runs it on one thread, and writes the answer,
/// with `--trace` behind what the watchers tell.
///
/// The words are those behind the program's own name. Words of another command are answered by the usage line, and the
/// source is not touched then.
pub fn alone<S: Source, K: Sink>(
    alloc: Global,
    words: &[String],
    source: &mut S,
    sink: &mut K,
    watchers: &mut Vec<Box<dyn Watcher>>,
) -> Status
    requires room { All (λ w. HasRoom (state w)) watchers.old.items }

    // What was written is the reply to the words and to the text that was left, as the ending says.
    ensures replied { IfSome (S.left source.old) (λ text.
        Replied (IsReply AreWordsOfAlone (map string_bytes words.now) text
        (map (λ w. state w) watchers.old.items) (map (λ w. state w) watchers.new.items))
        (K.taken sink.old) (K.taken sink.new) result) }
    ensures usage { IsUnserved AreWordsOfAlone (map string_bytes words.now) →
        Replied IsUsage (K.taken sink.old) (K.taken sink.new) result × (source.new ≡ source.old)
        × (watchers.new ≡ watchers.old) × IsWordsEnd result }
    ensures words { (command : CommandValue) → AreWordsOfAlone (map string_bytes words.now) command →
        result ≢ Status.Usage }

    // A text is refused for its first fault, or for a limit.
    ensures syntax { result ≡ Status.Syntax → IfSome (S.left source.old) HasSyntaxFault }
    ensures limit { result ≡ Status.Limit → IfSome (S.left source.old) PassesLimit }

    // Each fault has its cause.
    ensures read_fault { result ≡ Status.ReadFault →
        Rose (S.faults source.old) (S.faults source.new) × (watchers.new ≡ watchers.old) }
    ensures write_fault { result ≡ Status.WriteFault → Rose (K.faults sink.old) (K.faults sink.new) }
    ensures nothing_written { TookNothing result → sink.new ≡ sink.old }

    // Where memory was wanted, the watchers have noted the changes of whole turns, or some of them of one turn more.
    ensures memory { result ≡ Status.Memory → IfSome (S.left source.old) (λ text.
        IsOutOfMemory AreWordsOfAlone (map string_bytes words.now) text
        (map (λ w. state w) watchers.old.items) (map (λ w. state w) watchers.new.items)) }

    // Nothing is left of a text that is not too long.
    ensures drained { HasRead CommandKind.Alone result → IfSome (S.left source.old) (λ text.
        length text ≤ TEXT_LIMIT → S.left source.new ≡ Some []) }
{
    let command = match command_of_alone(alloc, words) {
        Ok(Some(command)) => command,
        Ok(None) => return written(sink, Status::Usage, USAGE),
        Err(_) => return Status::Memory,
    };
    let Program {
        names,
        clauses,
        query,
    } = match given(alloc, source, sink) {
        Ok(program) => program,
        Err(status) => return status,
    };
    let ran = run_alone(alloc, command.settings, clauses, &query, watchers);
    finish_text(alloc, command, &names, &query, ran, sink, watchers)
}

/// Runs the text that the source has left, as the command says.
fn text<R: Threads + Wait + Sync, S: Source, K: Sink, G: Gate>(
    rt: &R,
    alloc: Global,
    command: Command,
    source: &mut S,
    sink: &mut K,
    gate: &G,
    watchers: &mut Vec<Box<dyn Watcher>>,
) -> Status
    requires workers { (1 ≤ command.settings.workers) × (command.settings.workers ≤ WORKER_LIMIT) }
    requires room { All (λ w. HasRoom (state w)) watchers.old.items }
    ensures replied { IfSome (S.left source.old) (λ text. Replied (IsReplyToText command.settings command.trace text
        (map (λ w. state w) watchers.old.items) (map (λ w. state w) watchers.new.items))
        (K.taken sink.old) (K.taken sink.new) result) }
    ensures no_usage { result ≢ Status.Usage }
    ensures read_fault { result ≡ Status.ReadFault →
        Rose (S.faults source.old) (S.faults source.new) × (watchers.new ≡ watchers.old) }
    ensures write_fault { result ≡ Status.WriteFault → Rose (K.faults sink.old) (K.faults sink.new) }
    ensures nothing_written { TookNothing result → sink.new ≡ sink.old }
    ensures drained { HasReadText result → IfSome (S.left source.old) (λ text.
        length text ≤ TEXT_LIMIT → S.left source.new ≡ Some []) }
    ensures memory { result ≡ Status.Memory → IfSome (S.left source.old) (λ text. HasNoted command.settings text
        (map (λ w. state w) watchers.old.items) (map (λ w. state w) watchers.new.items)) }
{
    let Program {
        names,
        clauses,
        query,
    } = match given(alloc, source, sink) {
        Ok(program) => program,
        Err(status) => return status,
    };
    let ran = run_by(rt, alloc, command, clauses, &query, gate, watchers);
    finish_text(alloc, command, &names, &query, ran, sink, watchers)
}

/// Runs the generated text of a number with workers.
fn make<R: Threads + Wait + Sync, K: Sink, G: Gate>(
    rt: &R,
    alloc: Global,
    command: Command,
    number: u32,
    sink: &mut K,
    gate: &G,
    watchers: &mut Vec<Box<dyn Watcher>>,
) -> Status
    requires number { (1 ≤ number) × (number ≤ MAKE_LIMIT) }
    requires workers { (1 ≤ command.settings.workers) × (command.settings.workers ≤ WORKER_LIMIT) }
    requires room { All (λ w. HasRoom (state w)) watchers.old.items }
    ensures replied { Replied (IsSummary command.settings number
        (map (λ w. state w) watchers.old.items) (map (λ w. state w) watchers.new.items))
        (K.taken sink.old) (K.taken sink.new) result }
    ensures ends { IsRunEnd result }
    ensures write_fault { result ≡ Status.WriteFault → Rose (K.faults sink.old) (K.faults sink.new) }
    ensures nothing_written { TookNothing result → sink.new ≡ sink.old }
    ensures memory { result ≡ Status.Memory → HasNoted command.settings (make_text number)
        (map (λ w. state w) watchers.old.items) (map (λ w. state w) watchers.new.items) }
{
    let Program { clauses, query, .. } = match generated(alloc, number) {
        Ok(program) => program,
        Err(_) => return Status::Memory,
    };
    let ran = run_by(rt, alloc, command, clauses, &query, gate, watchers);
    finish_make(alloc, command.settings, ran, sink)
}

/// Serves a command of the program: runs the text that the source has left, for `alone` on one thread and for `run`
/// with workers, and writes the answer, with `--trace` behind what the watchers tell; or runs the generated text of
/// `make` with workers, and writes its summary.
///
/// The words are those behind the program's own name. Words of no command are answered by the usage line, and the
/// source is not touched then; for `make` it is not touched either.
pub fn propia<R: Threads + Wait + Sync, S: Source, K: Sink, G: Gate>(
    rt: &R,
    alloc: Global,
    words: &[String],
    source: &mut S,
    sink: &mut K,
    gate: &G,
    watchers: &mut Vec<Box<dyn Watcher>>,
) -> Status
    requires room { All (λ w. HasRoom (state w)) watchers.old.items }

    // What was written is the reply to the words and to the text that was left, as the ending says.
    ensures replied { IfSome (S.left source.old) (λ text.
        Replied (IsReply AreWordsOf (map string_bytes words.now) text
        (map (λ w. state w) watchers.old.items) (map (λ w. state w) watchers.new.items))
        (K.taken sink.old) (K.taken sink.new) result) }
    ensures usage { IsUnserved AreWordsOf (map string_bytes words.now) →
        Replied IsUsage (K.taken sink.old) (K.taken sink.new) result × (source.new ≡ source.old)
        × (watchers.new ≡ watchers.old) × IsWordsEnd result }
    ensures words { (command : CommandValue) → AreWordsOf (map string_bytes words.now) command →
        result ≢ Status.Usage }

    // `make` needs no text.
    ensures make { (command : CommandValue) (number : ℕ) → AreWordsOf (map string_bytes words.now) command →
        command.kind ≡ CommandKind.Make number →
        Replied (IsSummary command.settings number
        (map (λ w. state w) watchers.old.items) (map (λ w. state w) watchers.new.items))
        (K.taken sink.old) (K.taken sink.new) result × (source.new ≡ source.old) }

    // A text is refused for its first fault, or for a limit.
    ensures syntax { result ≡ Status.Syntax → IfSome (S.left source.old) HasSyntaxFault }
    ensures limit { result ≡ Status.Limit → IfSome (S.left source.old) PassesLimit }

    // Each fault has its cause.
    ensures read_fault { result ≡ Status.ReadFault →
        Rose (S.faults source.old) (S.faults source.new) × (watchers.new ≡ watchers.old) }
    ensures write_fault { result ≡ Status.WriteFault → Rose (K.faults sink.old) (K.faults sink.new) }
    ensures nothing_written { TookNothing result → sink.new ≡ sink.old }

    // Where memory was wanted, the watchers have noted the changes of whole turns, or some of them of one turn more.
    ensures memory { result ≡ Status.Memory → IfSome (S.left source.old) (λ text.
        IsOutOfMemory AreWordsOf (map string_bytes words.now) text
        (map (λ w. state w) watchers.old.items) (map (λ w. state w) watchers.new.items)) }

    // Nothing is left of a text that is not too long.
    ensures drained { (command : CommandValue) → AreWordsOf (map string_bytes words.now) command →
        HasRead command.kind result → IfSome (S.left source.old) (λ text.
        length text ≤ TEXT_LIMIT → S.left source.new ≡ Some []) }
{
    let command = match command_of(alloc, words) {
        Ok(Some(command)) => command,
        Ok(None) => return written(sink, Status::Usage, USAGE),
        Err(_) => return Status::Memory,
    };
    if let CommandKind::Make(number) = command.kind {
        return make(rt, alloc, command, number, sink, gate, watchers);
    }
    text(rt, alloc, command, source, sink, gate, watchers)
}
