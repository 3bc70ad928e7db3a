//! Names.
ghost use Rattle.std.specs.Prelude.{◌≡◌, ◌<◌, IfOk, OnErr, MatchOption, IsTrue, false, length, slice_index_or, [], ◌∷◌};
ghost use Rattle.pp_algebra.specs.Canon.{firsts, has, place, Distinct};
ghost use Rattle.pp_algebra.specs.Texts.{same_text};

use indexmap::IndexSet;
use std::alloc::{AllocError, Global};
use std::marker::Model;

/// Texts by number, each of them once. The numbers of names in cells and predicates are given here.
#[derive(Debug, Drop)]
pub struct Names {
    alloc: Global,
    texts: IndexSet<Vec<u8>>,
}

impl Model for Names {
    ghost use Rattle.std.specs.Prelude.{◌≤◌, ◌^◌, ℕ, List, map, length};
    ghost use Rattle.pp_algebra.specs.Canon.{Distinct};
    ghost use Rattle.pp_algebra.specs.Texts.{same_text};

    ghost Value = { List (List ℕ) };

    ghost view = { λ s. map (λ t. t.items) s.texts.keys };

    ghost invariant = { λ s. Distinct same_text (map (λ t. t.items) s.texts.keys) × (length s.texts.keys ≤ 2 ^ 32) };
}

impl Names {
    /// No names.
    pub fn new(alloc: Global) -> Names
        ensures { result ≡ [] }
    {
        Names {
            alloc,
            texts: IndexSet::new(alloc),
        }
    }

    /// How many there are.
    pub fn len(&self) -> usize
        ensures len { result ≡ length self.now }
        ensures distinct { Distinct same_text self.now }
    {
        self.texts.len()
    }

    /// The number of the text, which is the next one where the text is new.
    pub fn intern(&mut self, text: &[u8]) -> Result<u32, AllocError>
        ensures names { IfOk result (λ _. self.new ≡ firsts same_text self.old (text.now ∷ [])) }
        ensures number { IfOk result (λ n. n ≡ place same_text self.new text.now) }
        ensures err { OnErr result (self.new ≡ self.old) }
    {
        match self.texts.get_index_of(text) {
            Some(place) => Ok(place as u32),
            None => {
                let number = u32::try_from(self.texts.len()).map_err(|_| AllocError)?;
                self.texts.insert(Vec::from_slice(self.alloc, text)?)?;
                Ok(number)
            }
        }
    }

    /// The number of the text; `None` exactly where no name has this text.
    pub fn find(&self, text: &[u8]) -> Option<u32>
        ensures { MatchOption result
            (has same_text self.now text.now ≡ false)
            (λ n. IsTrue (has same_text self.now text.now) × (n ≡ place same_text self.now text.now)) }
    {
        match self.texts.get_index_of(text) {
            Some(place) => Some(place as u32),
            None => None,
        }
    }

    /// The text of a number that was given.
    pub fn text(&self, name: u32) -> &[u8]
        requires { name < length self.now }
        ensures { result.now ≡ slice_index_or self.now name [] }
    {
        self.texts[name as usize].as_slice()
    }

    /// A copy.
    pub fn copy(&self) -> Result<Names, AllocError>
        ensures { IfOk result (λ names. names ≡ self.now) }
    {
        let mut copy = Names::new(self.alloc);
        for text in self.texts.as_slice() {
            copy.intern(text.as_slice())?;
        }
        Ok(copy)
    }
}
