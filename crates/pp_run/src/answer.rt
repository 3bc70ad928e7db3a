// The answer of a run: its status, and the bytes to be written.
ghost use Rattle.std.specs.Prelude.{◌≡◌, ◌++◌, IfOk, map};
ghost use Rattle.pp_language.specs.Printing.{name_at};
ghost use Rattle.pp_propagation.specs.Replies.{status_of, answer_text, told_if};
ghost use Rattle.pp_fix.specs.Fixing.{end_by};

use crate::lines::NO;
use crate::reply::Reply;
use crate::run::Ran;
use pp_fix::End;
use pp_language::Status;
use pp_print::store_text;
use pp_term::{Names, Query};
use pp_watch::{Watcher, tell_all};
use std::alloc::{AllocError, Global};

/// The status of a run that ended so.
pub(crate) fn status_of(end: End) -> Status
    ensures { result ≡ status_of (end_by end) }
{
    match end {
        End::Yes => Status::Yes,
        End::No => Status::No,
        End::Stopped => Status::Stopped,
    }
}

/// The text of a run of this query.
fn answer_text(
    alloc: Global,
    names: &Names,
    query: &Query,
    ran: &Ran,
) -> Result<Vec<u8>, AllocError>
    ensures { IfOk result (λ bytes. bytes.items ≡ answer_text names.now (map (name_at names.now) query.now.named)
        ran.now.row ran.now.fixed.unfinished (end_by ran.now.fixed.end)) }
{
    let unfinished = ran.fixed.unfinished.as_slice();
    match ran.fixed.end {
        End::No => Vec::from_slice(alloc, NO),
        End::Yes => store_text(alloc, names, query, &ran.row, unfinished, false),
        End::Stopped => store_text(alloc, names, query, &ran.row, unfinished, true),
    }
}

/// What the watchers tell, where it is asked for.
fn told_if(
    alloc: Global,
    trace: bool,
    names: &Names,
    watchers: &[Box<dyn Watcher>],
) -> Result<Vec<u8>, AllocError>
    ensures { IfOk result (λ bytes. bytes.items ≡ told_if trace names.now (map (λ w. state w) watchers.now)) }
{
    if trace {
        tell_all(alloc, names, watchers)
    } else {
        Ok(Vec::new(alloc))
    }
}

/// The answer of a run of this query, behind what the watchers tell.
pub(crate) fn answer(
    alloc: Global,
    trace: bool,
    names: &Names,
    query: &Query,
    ran: &Ran,
    watchers: &[Box<dyn Watcher>],
) -> Result<Reply, AllocError>
    ensures status { IfOk result (λ r. r.status ≡ status_of (end_by ran.now.fixed.end)) }
    ensures text { IfOk result (λ r. r.bytes.items ≡ told_if trace names.now (map (λ w. state w) watchers.now)
        ++ answer_text names.now (map (name_at names.now) query.now.named) ran.now.row ran.now.fixed.unfinished
        (end_by ran.now.fixed.end)) }
{
    let mut bytes = told_if(alloc, trace, names, watchers)?;
    let answer = answer_text(alloc, names, query, ran)?;
    bytes.extend_from_slice(&answer)?;
    Ok(Reply {
        status: status_of(ran.fixed.end),
        bytes,
    })
}
