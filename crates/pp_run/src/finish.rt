// What is written of a run that was made.
ghost use Rattle.std.specs.Prelude.{◌≡◌, ◌≢◌, ◌≤◌, ℕ, List, length, map, IfOk};
ghost use Rattle.pp_language.specs.Texts.{Text};
ghost use Rattle.pp_language.specs.Limits.{Writes};
ghost use Rattle.pp_language.specs.Generator.{make_text};
ghost use Rattle.pp_propagation.specs.Watchers.{Watcher as State};
ghost use Rattle.pp_propagation.specs.Replies.{IsReplyToText, IsSummary};
ghost use Rattle.pp_io.specs.Ends.{Rose};
ghost use Rattle.pp_read.specs.declared.program.Program.{Program as Given};
ghost use Rattle.pp_read.specs.Programs.{written_of};
ghost use Rattle.pp_run.specs.Endings.{Replied, TookNothing, IsRunEnd};
ghost use Rattle.pp_run.specs.Made.{IsRanOf};

use crate::answer::answer;
use crate::reply::written;
use crate::run::Ran;
use crate::summary::summary;
use pp_io::Sink;
use pp_language::{Command, Settings, Status, TEXT_LIMIT};
use pp_term::{Names, Query};
use pp_watch::Watcher;
use std::alloc::{AllocError, Global};

/// Writes the answer of a run, if it was made.
pub(crate) fn finish_text<K: Sink>(
    alloc: Global,
    command: Command,
    names: &Names,
    query: &Query,
    ran: Result<Ran, AllocError>,
    sink: &mut K,
    watchers: &[Box<dyn Watcher>],
) -> Status
    ensures replied { (p : Given) (text : Text) (old : List State) → names.now ≡ p.names → query.now ≡ p.query →
        Writes text (written_of p) → length text ≤ TEXT_LIMIT →
        IfOk ran (IsRanOf p command.settings old (map (λ w. state w) watchers.now)) →
        Replied (IsReplyToText command.settings command.trace text old (map (λ w. state w) watchers.now))
        (K.taken sink.old) (K.taken sink.new) result }
    ensures ends { IsRunEnd result }
    ensures write_fault { result ≡ Status.WriteFault → Rose (K.faults sink.old) (K.faults sink.new) }
    ensures nothing_written { TookNothing result → sink.new ≡ sink.old }
{
    let Ok(ran) = ran else {
        return Status::Memory;
    };
    match answer(alloc, command.trace, names, query, &ran, watchers) {
        Ok(reply) => written(sink, reply.status, &reply.bytes),
        Err(_) => Status::Memory,
    }
}

/// Writes the summary of a run of a generated text, if it was made.
pub(crate) fn finish_make<K: Sink>(
    alloc: Global,
    settings: Settings,
    ran: Result<Ran, AllocError>,
    sink: &mut K,
) -> Status
    ensures replied { (p : Given) (n : ℕ) (old new : List State) → Writes (make_text n) (written_of p) →
        IfOk ran (IsRanOf p settings old new) →
        Replied (IsSummary settings n old new) (K.taken sink.old) (K.taken sink.new) result }
    ensures ends { IsRunEnd result }
    ensures write_fault { result ≡ Status.WriteFault → Rose (K.faults sink.old) (K.faults sink.new) }
    ensures nothing_written { TookNothing result → sink.new ≡ sink.old }
{
    let Ok(ran) = ran else {
        return Status::Memory;
    };
    match summary(alloc, &ran) {
        Ok(summary) => written(sink, summary.status, &summary.bytes),
        Err(_) => Status::Memory,
    }
}
