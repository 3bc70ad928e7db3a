//! A watcher that notes so many changes.
ghost use Rattle.std.specs.Prelude.{◌≡◌, ◌≤◌, ◌∷◌, [], Some, IfOk, OnErr, OnOk, map};
ghost use Rattle.pp_propagation.specs.Watchers.{HasRoom, noting, watcher_text};
ghost use Rattle.pp_watch.specs.Watching.{change_by, keep_by};

use crate::change::Change;
use crate::keep::Keep;
use crate::lines::lines_of;
use crate::watcher::Watcher;
use pp_term::Names;
use std::alloc::{AllocError, Global};
use std::marker::Model;

/// Notes the first changes that it is told, so many of them, and leaves with the last.
#[derive(Debug, Drop)]
pub struct FirstFew {
    noted: Vec<Change>,
    room: u64,
}

impl Model for FirstFew {
    ghost use Rattle.std.specs.Prelude.{Some, map};
    ghost use Rattle.pp_propagation.specs.Watchers.{Watcher as State};
    ghost use Rattle.pp_watch.specs.Watching.{change_by, watcher_code};

    ghost Value = { State };

    ghost coded = { watcher_code };

    ghost view = { λ s. record { noted = map change_by s.noted.items; room = Some s.room } };
}

impl FirstFew {
    /// One that notes so many changes.
    pub fn new(alloc: Global, count: u64) -> FirstFew
        requires some { 1 ≤ count }
        ensures { result ≡ record { noted = []; room = Some count } }
    {
        FirstFew {
            noted: Vec::new(alloc),
            room: count,
        }
    }
}

impl Watcher for FirstFew {
    ghost state = { λ w. w };

    fn note(&mut self, change: &Change) -> Result<Keep, AllocError> {
        let copy = change.copy()?;
        self.noted.push(copy)?;
        self.room -= 1;
        Ok(if self.room == 0 {
            Keep::Leave
        } else {
            Keep::Stay
        })
    }

    fn tell(&self, alloc: Global, names: &Names) -> Result<Vec<u8>, AllocError> {
        lines_of(alloc, names, &self.noted)
    }
}
