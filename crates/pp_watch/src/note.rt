//! Several watchers.
ghost use Rattle.std.specs.Prelude.{◌≡◌, ◌∷◌, [], All, map, OnOk, OnErr, IfOk};
ghost use Rattle.pp_propagation.specs.Watchers.{HasRoom, NotedInPart, after, noting, told, watcher_text};
ghost use Rattle.pp_watch.specs.Watching.{change_by, keep_by};

use crate::change::Change;
use crate::keep::Keep;
use crate::watcher::Watcher;
use pp_term::Names;
use std::alloc::{AllocError, Global};

/// One watcher notes the change.
fn note_one(watcher: &mut Box<dyn Watcher>, change: &Change) -> Result<Keep, AllocError>
    requires room { HasRoom (state watcher.old) }
    ensures noted { OnOk result (state watcher.new ≡ noting (change_by change.now ∷ []) (state watcher.old)) }
    ensures keep { IfOk result (λ keep. keep ≡ keep_by (state watcher.new)) }
    ensures err { OnErr result (state watcher.new ≡ state watcher.old) }
{
    watcher.note(change)
}

/// The watchers note the change, one after another. One that leaves is dropped before the next is told.
///
/// After want of memory the first of them have noted it, and the others have not.
pub fn note_all(watchers: &mut Vec<Box<dyn Watcher>>, change: &Change) -> Result<(), AllocError>
    requires room { All (λ w. HasRoom (state w)) watchers.old.items }
    ensures noted { OnOk result (map (λ w. state w) watchers.new.items
        ≡ after (map (λ w. state w) watchers.old.items) (change_by change.now ∷ [])) }
    ensures part { OnErr result (NotedInPart (change_by change.now ∷ []) []
        (map (λ w. state w) watchers.old.items) (map (λ w. state w) watchers.new.items)) }
{
    let mut at = 0;
    while at < watchers.len() {
        match note_one(&mut watchers[at], change)? {
            Keep::Stay => at += 1,
            Keep::Leave => drop(watchers.remove(at)),
        }
    }
    Ok(())
}

/// What one watcher tells.
fn tell_one(alloc: Global, names: &Names, watcher: &Box<dyn Watcher>) -> Result<Vec<u8>, AllocError>
    ensures { IfOk result (λ bytes. bytes.items ≡ watcher_text names.now (state watcher.now)) }
{
    watcher.tell(alloc, names)
}

/// What the watchers tell, in their order.
pub fn tell_all(
    alloc: Global,
    names: &Names,
    watchers: &[Box<dyn Watcher>],
) -> Result<Vec<u8>, AllocError>
    ensures { IfOk result (λ bytes. bytes.items ≡ told names.now (map (λ w. state w) watchers.now)) }
{
    let mut out = Vec::new(alloc);
    for watcher in watchers {
        let text = tell_one(alloc, names, watcher)?;
        out.extend_from_slice(&text)?;
    }
    Ok(out)
}
