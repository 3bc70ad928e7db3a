//! The goals whose face isn't what it was.
ghost use Rattle.std.specs.Prelude.{◌≡◌, ℕ, All, IfOk, filter, length, map};
ghost use Rattle.pp_algebra.specs.Rows.{Row as RowValue};
ghost use Rattle.pp_store.specs.Changing.{face_at, differs};
ghost use Rattle.pp_store.specs.Patterns.{row_in, IsSound};
ghost use Rattle.pp_store.specs.Queries.{goals_in, IsGoalIn};

use crate::goals::GoalIndex;
use crate::pattern::Pattern;
use pp_term::Row;
use std::alloc::AllocError;

/// The faces of these goals.
pub(crate) fn faces(
    goals: &GoalIndex,
    pattern: &Pattern,
    numbers: &[u32],
) -> Result<Vec<Row>, AllocError>
    requires sound { IsSound pattern.now }
    requires count { length pattern.now.columns.items ≡ goals.now.vars }
    requires goals { All (IsGoalIn goals.now) numbers.now }
    ensures { IfOk result (λ faces. faces.items ≡ map (face_at (goals_in goals.now) (row_in pattern.now)) numbers.now) }
{
    let mut faces = Vec::with_capacity(pattern.alloc, numbers.len())?;
    for number in numbers {
        faces.push(pattern.face(goals.at(*number).arguments)?)?;
    }
    Ok(faces)
}

/// Those of these goals whose face isn't what it was before.
pub(crate) fn changed(
    goals: &GoalIndex,
    pattern: &Pattern,
    numbers: &[u32],
    before: &[Row],
) -> Result<Vec<u32>, AllocError>
    requires sound { IsSound pattern.now }
    requires count { length pattern.now.columns.items ≡ goals.now.vars }
    requires goals { All (IsGoalIn goals.now) numbers.now }
    requires many { length before.now ≡ length numbers.now }
    ensures { IfOk result (λ changed. (old : RowValue) → before.now ≡ map (face_at (goals_in goals.now) old) numbers.now
        → changed.items ≡ filter (differs (goals_in goals.now) old (row_in pattern.now)) numbers.now) }
{
    let mut changed = Vec::new(pattern.alloc);
    for (i, number) in numbers.iter().enumerate() {
        let after = pattern.face(goals.at(*number).arguments)?;
        if !before[i].same(&after) {
            changed.push(*number)?;
        }
    }
    Ok(changed)
}
