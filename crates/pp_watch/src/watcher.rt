//! What a watcher is.
ghost use Rattle.std.specs.Prelude.{◌≡◌, ◌∷◌, [], IfOk, OnErr, OnOk};
ghost use Rattle.pp_propagation.specs.Watchers.{Watcher as State, HasRoom, noting, watcher_text};
ghost use Rattle.pp_watch.specs.Watching.{change_by, keep_by};

use crate::change::Change;
use crate::keep::Keep;
use pp_term::Names;
use std::alloc::{AllocError, Global};

/// Who is told of the changes of a run. It notes each, and tells them afterwards.
///
/// A watcher may count how many changes it still notes; with the last of these it leaves. After want of memory it is
/// as before the call.
pub trait Watcher: Drop {
    ghost state: { Self → State };

    /// Notes a change.
    fn note(&mut self, change: &Change) -> Result<Keep, AllocError>
        requires room { HasRoom (state self.old) }
        ensures noted { OnOk result (state self.new ≡ noting (change_by change.now ∷ []) (state self.old)) }
        ensures keep { IfOk result (λ keep. keep ≡ keep_by (state self.new)) }
        ensures err { OnErr result (state self.new ≡ state self.old) };

    /// A line for each change that it noted.
    fn tell(&self, alloc: Global, names: &Names) -> Result<Vec<u8>, AllocError>
        ensures { IfOk result (λ bytes. bytes.items ≡ watcher_text names.now (state self.now)) };
}
