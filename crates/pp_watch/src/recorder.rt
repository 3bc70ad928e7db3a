//! A watcher that notes all changes.
ghost use Rattle.std.specs.Prelude.{◌≡◌, ◌∷◌, [], None, IfOk, OnErr, OnOk, map};
ghost use Rattle.pp_propagation.specs.Watchers.{HasRoom, noting, watcher_text};
ghost use Rattle.pp_watch.specs.Watching.{change_by, keep_by};

use crate::change::Change;
use crate::keep::Keep;
use crate::lines::lines_of;
use crate::watcher::Watcher;
use pp_term::Names;
use std::alloc::{AllocError, Global};
use std::marker::Model;

/// Notes all changes.
#[derive(Debug, Drop)]
pub struct Recorder {
    noted: Vec<Change>,
}

impl Model for Recorder {
    ghost use Rattle.std.specs.Prelude.{None, map};
    ghost use Rattle.pp_propagation.specs.Watchers.{Watcher as State};
    ghost use Rattle.pp_watch.specs.Watching.{change_by, watcher_code};

    ghost Value = { State };

    ghost coded = { watcher_code };

    ghost view = { λ s. record { noted = map change_by s.noted.items; room = None } };
}

impl Recorder {
    /// One that noted nothing yet.
    pub fn new(alloc: Global) -> Recorder
        ensures { result ≡ record { noted = []; room = None } }
    {
        Recorder {
            noted: Vec::new(alloc),
        }
    }
}

impl Watcher for Recorder {
    ghost state = { λ w. w };

    fn note(&mut self, change: &Change) -> Result<Keep, AllocError> {
        let copy = change.copy()?;
        self.noted.push(copy)?;
        Ok(Keep::Stay)
    }

    fn tell(&self, alloc: Global, names: &Names) -> Result<Vec<u8>, AllocError> {
        lines_of(alloc, names, &self.noted)
    }
}
