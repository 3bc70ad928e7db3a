//! What is read of a sentence from the right, token by token.
ghost use Rattle.std.specs.Prelude.{◌≡◌, ℕ, ◌+◌, ◌<◌, ◌^◌, List, [], ◌∷◌, All, IfOk, OnOk, MatchOption, reverse, length, Some, None};
ghost use Rattle.pp_row.specs.Cells.{head_of, cells_of};
ghost use Rattle.pp_language.specs.Texts.{Text};
ghost use Rattle.pp_language.specs.Phrases as phrases;
ghost use Rattle.pp_language.specs.Phrases.{no_phrases, phrase_words};
ghost use Rattle.pp_language.specs.Words.{Word};
ghost use Rattle.pp_language.specs.Meanings.{blanks};
ghost use Rattle.pp_language.specs.PartsOf as parts;
ghost use Rattle.pp_language.specs.PartsOf.{State, state, with_phrase, with_left, with_comma, with_mark, with_other, step, whole};
ghost use Rattle.pp_parse.specs.Words.{blanks_by};
ghost use Rattle.pp_parse.specs.Leaves.{leaf_by, IsNoTerm};
ghost use Rattle.pp_parse.specs.Terms.{term_of};
ghost use Rattle.pp_parse.specs.Parts.{AreParts};
ghost use Rattle.pp_parse.specs.Reading.{size_of, IsReading, Follows, IsHead};

use crate::parts::{Part, Phrase};
use crate::tokens::Leaf;
use pp_language::Kind;
use pp_term::Cell;
use std::alloc::{AllocError, Global};
use std::mem;

/// Arguments up to a closing parenthesis, and how many they are so far. A wanting group has room for one before them.
#[derive(Clone, Copy, Debug)]
pub(crate) enum Group {
    Wanting(u32),
    Filled(u32),
}

/// What is read so far. `arguments` is how many whole arguments await the name before them, and `cells` are those of the
/// term that is not whole yet. The cells, the groups and the parts stand from the last one on.
#[derive(Debug, Drop)]
pub(crate) struct Reading {
    cells: Vec<Cell>,
    arguments: u32,
    groups: Vec<Group>,
    parts: Vec<Part>,
}

fn head(name: u32, arguments: u32) -> Cell
    ensures { result ≡ head_of name arguments }
{
    if arguments == 0 {
        Cell::Atom(name)
    } else {
        Cell::Compound(name, arguments)
    }
}

impl Reading {
    /// Nothing.
    pub(crate) fn new(alloc: Global) -> Reading
        ensures { (names : List Text) (named : List Text) (n : ℕ) (i : ℕ) → IsReading names named n i (state no_phrases [] []) result }
    {
        Reading {
            cells: Vec::new(alloc),
            arguments: 0,
            groups: Vec::new(alloc),
            parts: Vec::new(alloc),
        }
    }

    /// The cells are a whole term, whose first token stands at this place.
    fn end_part(&mut self, alloc: Global, first: usize) -> Result<(), AllocError>
        ensures { (names : List Text) (named : List Text) (n : ℕ) (p : phrases.Phrase) (qs : List phrases.Part) → self.old.arguments ≡ 0 → self.old.groups.items ≡ []
            → reverse self.old.cells.items ≡ cells_of (term_of names named n p) → AreParts names named (n + blanks p) (first + length (phrase_words p)) qs (reverse self.old.parts.items)
            → OnOk result (IsReading names named n first (state no_phrases [] (phrases.term_part p ∷ qs)) self.new) }
    {
        let mut cells = mem::replace(&mut self.cells, Vec::new(alloc));
        cells.reverse();
        self.parts.push(Part::Term(Phrase { cells, first }))?;
        Ok(())
    }

    /// Takes in a term that begins with this cell, at this place; whether one may stand there.
    fn take_phrase(&mut self, alloc: Global, cell: Cell, first: usize) -> Result<bool, AllocError>
        requires { All (λ g. size_of g + 1 < 2 ^ 32) self.old.groups.items }
        ensures { (names : List Text) (named : List Text) (n : ℕ) (m : ℕ) (s : State) (p : phrases.Phrase) → IsHead names named n m p cell s.arguments
            → IsReading names named m (first + 1) s self.old → IfOk result (λ ok. Follows names named n first (with_phrase p s.groups s.parts) ok self.new) }
    {
        self.cells.push(cell)?;
        self.arguments = 0;
        match self.groups.pop() {
            None => {
                self.end_part(alloc, first)?;
                Ok(true)
            }
            Some(Group::Wanting(count)) => {
                self.groups.push(Group::Filled(count + 1))?;
                Ok(true)
            }
            Some(Group::Filled(_)) => Ok(false),
        }
    }

    /// Takes in an opening parenthesis; whether one may stand here.
    fn take_left(&mut self) -> bool
        ensures { (names : List Text) (named : List Text) (n : ℕ) (i : ℕ) (gs : List parts.Group) (qs : List phrases.Part)
            → IsReading names named n (i + 1) (state no_phrases gs qs) self.old → Follows names named n i (with_left gs qs) result self.new }
    {
        match self.groups.pop() {
            Some(Group::Filled(count)) => {
                self.arguments = count;
                true
            }
            Some(Group::Wanting(_)) => false,
            None => false,
        }
    }

    /// Takes in a comma; whether one may stand here.
    fn take_comma(&mut self) -> Result<bool, AllocError>
        ensures { (names : List Text) (named : List Text) (n : ℕ) (i : ℕ) (gs : List parts.Group) (qs : List phrases.Part)
            → IsReading names named n (i + 1) (state no_phrases gs qs) self.old → IfOk result (λ ok. Follows names named n i (with_comma gs qs) ok self.new) }
    {
        match self.groups.pop() {
            None => {
                self.parts.push(Part::Mark(Kind::Comma))?;
                Ok(true)
            }
            Some(Group::Filled(count)) => {
                self.groups.push(Group::Wanting(count))?;
                Ok(true)
            }
            Some(Group::Wanting(_)) => Ok(false),
        }
    }

    /// Takes in a mark that stands between terms alone; whether it may stand here.
    fn take_between(&mut self, kind: Kind) -> Result<bool, AllocError>
        ensures { (names : List Text) (named : List Text) (n : ℕ) (i : ℕ) (gs : List parts.Group) (qs : List phrases.Part)
            → IsReading names named n (i + 1) (state no_phrases gs qs) self.old → IfOk result (λ ok. Follows names named n i (with_mark kind gs qs) ok self.new) }
    {
        if !self.groups.is_empty() {
            return Ok(false);
        }
        self.parts.push(Part::Mark(kind))?;
        Ok(true)
    }

    /// Takes in a token that is no term; whether it may stand here.
    fn take_mark(&mut self, kind: Kind) -> Result<bool, AllocError>
        ensures { (names : List Text) (named : List Text) (n : ℕ) (i : ℕ) (gs : List parts.Group) (qs : List phrases.Part) (bs : Text) → IsNoTerm kind
            → IsReading names named n (i + 1) (state no_phrases gs qs) self.old → IfOk result (λ ok. Follows names named n i (with_other kind bs gs qs) ok self.new) }
    {
        match kind {
            Kind::Left => Ok(self.take_left()),
            Kind::Right => {
                self.groups.push(Group::Wanting(0))?;
                Ok(true)
            }
            Kind::Comma => self.take_comma(),
            Kind::Point => Ok(false),
            _ => self.take_between(kind),
        }
    }

    /// Takes in the token at this place; whether it may stand there.
    pub(crate) fn take(
        &mut self,
        alloc: Global,
        leaf: Leaf,
        first: usize,
    ) -> Result<bool, AllocError>
        requires { All (λ g. size_of g + 1 < 2 ^ 32) self.old.groups.items }
        ensures { (names : List Text) (named : List Text) (n : ℕ) (s : State) (w : Word) → leaf ≡ leaf_by names named n w.kind w.text
            → IsReading names named (n + blanks_by w.kind w.text) (first + 1) s self.old → IfOk result (λ ok. Follows names named n first (step w s) ok self.new) }
    {
        match leaf {
            Leaf::Name(name) => self.take_phrase(alloc, head(name, self.arguments), first),
            Leaf::Whole(cell) => {
                if self.arguments == 0 {
                    self.take_phrase(alloc, cell, first)
                } else {
                    Ok(false)
                }
            }
            Leaf::Mark(kind) => {
                if self.arguments == 0 {
                    self.take_mark(kind)
                } else {
                    Ok(false)
                }
            }
        }
    }

    /// The parts, where no group is open and no name is missing.
    pub(crate) fn finish(self) -> Option<Vec<Part>>
        ensures { (names : List Text) (named : List Text) (n : ℕ) (i : ℕ) (s : State) → IsReading names named n i s self
            → MatchOption result (whole s.arguments s.groups s.parts ≡ None)
            (λ ps. (qs : List phrases.Part) × (whole s.arguments s.groups s.parts ≡ Some qs) × AreParts names named n i qs ps.items) }
    {
        if self.arguments != 0 || !self.groups.is_empty() {
            return None;
        }
        let mut parts = self.parts;
        parts.reverse();
        Some(parts)
    }
}
