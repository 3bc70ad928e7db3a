// From the words of the command line to the exit status of the process.
ghost use Rattle.std.specs.Prelude.{◌≡◌, map, drop, IfOk, IfErr, IfSome, string_bytes, codes};
ghost use Rattle.std.specs.List.{list_any};
ghost use Rattle.std.specs.IoError.{error_kind};
ghost use Rattle.std.specs.declared.io.ErrorKind.TheVariants.{InvalidData};
ghost use Rattle.std.specs.Process.{exit_status};
ghost use Rattle.pp_algebra.specs.Texts.{same_text};
ghost use Rattle.pp_language.specs.Statuses.{code_of};
ghost use Rattle.pp_language.specs.Commands.{AreWordsOf};
ghost use Rattle.pp_propagation.specs.Replies.{IsUnserved, IsUsage};
ghost use Rattle.pp_run.specs.Endings.{Replied};
ghost use Rattle.propia.specs.Recorders.{IsServed};

use pp_io::{Sink, Source};
use pp_language::is_same;
use pp_run::{Status, propia};
use pp_watch::{Recorder, Watcher};
use pp_worker::OpenGate;
use std::alloc::Global;
use std::io;
use std::process::ExitCode;
use std::sync::Wait;
use std::thread::Threads;

/// The words after the program's own name.
fn after_name(words: &[String]) -> &[String]
    ensures { result.now ≡ drop 1 words.now }
{
    if words.is_empty() { words } else { &words[1..] }
}

fn is_trace(word: &String) -> bool
    ensures { result ≡ same_text (string_bytes word.now) (codes "--trace") }
{
    is_same(word.as_bytes(), b"--trace")
}

/// Whether `--trace` is among the words.
fn has_trace(words: &[String]) -> bool
    ensures { result ≡ list_any (λ word. same_text (string_bytes word) (codes "--trace")) words.now }
{
    words.iter().any(is_trace)
}

/// Serves the words behind the program's own name, with a recorder of the changes where `--trace` is among them.
fn watched<R: Threads + Wait + Sync, S: Source, K: Sink>(
    rt: &R,
    alloc: Global,
    words: &[String],
    source: &mut S,
    sink: &mut K,
) -> Status
    ensures served { IfSome (S.left source.old) (λ text.
        IsServed (map string_bytes words.now) text (K.taken sink.old) (K.taken sink.new) result) }
    ensures usage { IsUnserved AreWordsOf (map string_bytes words.now) →
        Replied IsUsage (K.taken sink.old) (K.taken sink.new) result × (source.new ≡ source.old) }
{
    let mut watchers: Vec<Box<dyn Watcher>> = Vec::new(alloc);
    if has_trace(words) {
        let Ok(recorder) = Box::new(alloc, Recorder::new(alloc)) else {
            return Status::Memory;
        };
        if watchers.push(recorder).is_err() {
            return Status::Memory;
        }
    }
    propia(rt, alloc, words, source, sink, &OpenGate, &mut watchers)
}

/// Serves the words of the command line, the program's own name first. Words that are no text are no command line.
pub fn served<R: Threads + Wait + Sync, S: Source, K: Sink>(
    rt: &R,
    alloc: Global,
    words: &io::Result<Vec<String>>,
    source: &mut S,
    sink: &mut K,
) -> Status
    // The words that are served are those after the program's own name.
    ensures handed { IfOk words.now (λ all. IfSome (S.left source.old) (λ text.
        IsServed (map string_bytes (drop 1 all.items)) text (K.taken sink.old) (K.taken sink.new) result)) }
    ensures no_text { IfErr words.now (λ e. error_kind e ≡ InvalidData →
        Replied IsUsage (K.taken sink.old) (K.taken sink.new) result × (source.new ≡ source.old)) }
{
    match words {
        Ok(words) => watched(rt, alloc, after_name(words), source, sink),
        Err(error) if error.kind() == io::ErrorKind::InvalidData => {
            watched(rt, alloc, &[], source, sink)
        }
        Err(_) => Status::Memory,
    }
}

/// The process ends with the status's code.
pub fn ended(status: Status) -> ExitCode
    ensures { exit_status result ≡ code_of status }
{
    ExitCode::from(status.code())
}
