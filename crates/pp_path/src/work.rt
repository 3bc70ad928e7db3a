//! Works.
ghost use Rattle.std.specs.Prelude.{◌≡◌, ◌≢◌, ◌↔◌, ◌<◌, ◌≤◌, [], ◌∷◌, ◌++◌, true, false, not, IsTrue, IfOk, IfNone, OnOk, OnErr, Some, None, length, slice_set};
ghost use Rattle.smallvec.specs.SmallVec.{small_vec_len};
ghost use Rattle.pp_sld.specs.Works as works;
ghost use Rattle.pp_path.specs.Works.{code_level, level_by, work_by, levels_of, split_by, skipped, HasMore};

use crate::Level;
use crate::levels::{first_with_sibling, has_sibling, same_levels};
use smallvec::SmallVec;
use std::alloc::{AllocError, Global};
use std::marker::Model;

/// What is left of a search: the subtree that the `now` choices of the path reach, and at each level the siblings
/// after it; or nothing, where the work is spent. Up to 16 levels take no memory.
#[derive(Debug, Drop)]
pub struct Work {
    levels: SmallVec<Level, 16>,
    is_spent: bool,
}

impl Model for Work {
    ghost use Rattle.std.specs.Prelude.{◌≡◌, ◌≤◌, [], true, cond, List, Option, Some, None};
    ghost use Rattle.std.specs.Coded.{codes};
    ghost use Rattle.pp_path.specs.declared.levels.Level.{Level};
    ghost use Rattle.pp_path.specs.contracts.levels.Level as level;
    ghost use Rattle.pp_path.specs.Works.{AreLevels};

    ghost Value = { Option (List Level) };

    ghost coded = { Prim.hlevel (codes, level.the_row.coded) };

    ghost view = { λ s. cond s.is_spent None (Some s.levels.items) };

    ghost invariant = { λ s. (16 ≤ s.levels.capacity) × AreLevels s.levels.items × (s.is_spent ≡ true → s.levels.items ≡ []) };
}

impl Work {
    /// The whole search.
    pub fn root(alloc: Global) -> Work
        ensures { result ≡ Some [] }
    {
        Work {
            levels: SmallVec::new(alloc),
            is_spent: false,
        }
    }

    /// The levels from the root on; none where the work is spent.
    pub fn path(&self) -> &[Level]
        ensures { result.now ≡ levels_of self.now }
    {
        self.levels.as_slice()
    }

    /// Whether nothing is left.
    pub fn is_spent(&self) -> bool
        ensures { IsTrue result ↔ (self.now ≡ None) }
    {
        self.is_spent
    }

    /// Whether two works are the same.
    pub fn same(&self, other: &Work) -> bool
        ensures { IsTrue result ↔ (self.now ≡ other.now) }
    {
        self.is_spent == other.is_spent
            && same_levels(self.levels.as_slice(), other.levels.as_slice())
    }

    /// A copy. Memory is wanted only past 16 levels.
    pub fn copy(&self) -> Result<Work, AllocError>
        ensures same { IfOk result (λ work. work ≡ self.now) }
        ensures deep { OnErr result (16 < length (levels_of self.now)) }
    {
        let mut levels = SmallVec::new(*self.levels.allocator());
        levels.extend_from_slice(self.levels.as_slice())?;
        Ok(Work {
            levels,
            is_spent: self.is_spent,
        })
    }

    /// Goes down to the first of `count` children. Memory is wanted only from the 17th level on.
    pub fn down(&mut self, count: u64) -> Result<(), AllocError>
        requires open { self.old ≢ None }
        requires some { 1 ≤ count }
        ensures down { OnOk result (work_by self.new ≡ works.down count (work_by self.old)) }
        ensures err { OnErr result (self.new ≡ self.old) }
        ensures deep { OnErr result (16 ≤ length (levels_of self.old)) }
    {
        let level = Level { now: 0, end: count };
        self.levels.push(level).map_err(|_| AllocError)?;
        Ok(())
    }

    /// Gives up the subtree at the path and goes on to the next one that is left: the last level that has a sibling
    /// left moves on, and the levels behind it go. False where nothing is left; then the work is spent.
    pub fn next(&mut self) -> bool
        ensures next { work_by self.new ≡ works.next (work_by self.old) }
        ensures left { IsTrue result ↔ (self.new ≢ None) }
    {
        for _ in 0..self.levels.len() {
            let Some(last) = self.levels.pop() else { break };
            if has_sibling(last) {
                self.levels.push_reserved(Level {
                    now: last.now + 1,
                    end: last.end,
                });
                return true;
            }
        }
        self.is_spent = true;
        false
    }

    /// Gives up so many children of the last level at once, and the subtree at the path with them. It is as many calls
    /// of `next`.
    pub fn skip(&mut self, count: u64)
        requires { HasMore self.old count }
        ensures { work_by self.new ≡ skipped count (work_by self.old) }
    {
        let place = self.levels.len() - 1;
        let last = self.levels[place];
        let moved = Level {
            now: last.now + count,
            end: last.end,
        };
        put(&mut self.levels, place, moved);
    }

    /// Splits the siblings of the first level that has any left off into a work of their own; None where no level
    /// has. Memory is wanted only past 16 levels.
    pub fn split(&mut self) -> Result<Option<Work>, AllocError>
        ensures split { IfOk result (λ other. split_by self.new other ≡ works.split (work_by self.old)) }
        ensures none { IfOk result (λ other. IfNone other (self.new ≡ self.old)) }
        ensures err { OnErr result (self.new ≡ self.old) }
        ensures deep { OnErr result (16 < length (levels_of self.old)) }
    {
        let Some(place) = first_with_sibling(self.levels.as_slice()) else {
            return Ok(None);
        };
        let level = self.levels[place];
        let next = level.now + 1;
        let before = &self.levels[..place];
        let levels = followed_by(*self.levels.allocator(), before, next, level.end)?;
        let stays = Level {
            now: level.now,
            end: next,
        };
        put(&mut self.levels, place, stays);
        Ok(Some(Work {
            levels,
            is_spent: false,
        }))
    }
}

/// Some levels, and one more behind them.
fn followed_by(
    alloc: Global,
    before: &[Level],
    now: u64,
    end: u64,
) -> Result<SmallVec<Level, 16>, AllocError>
    ensures levels { IfOk result (λ levels. levels.items ≡ before.now ++ code_level now end ∷ []) }
    ensures room { IfOk result (λ levels. 16 ≤ levels.capacity) }
    ensures deep { OnErr result (16 ≤ length before.now) }
{
    let mut levels = SmallVec::new(alloc);
    levels.extend_from_slice(before)?;
    let last = Level { now, end };
    levels.push(last).map_err(|_| AllocError)?;
    Ok(levels)
}

/// Puts a level in the place of another.
fn put(levels: &mut SmallVec<Level, 16>, place: usize, level: Level)
    requires { place < small_vec_len levels.old }
    ensures items { levels.new.items ≡ slice_set levels.old.items place level }
    ensures capacity { levels.new.capacity ≡ levels.old.capacity }
{
    levels.as_mut_slice()[place] = level;
}
