//! The levels of a path.
ghost use Rattle.std.specs.Prelude.{◌≡◌, ◌↔◌, ◌<◌, true, length, slice_index_or, IsTrue, IfNone, IfSome};
ghost use Rattle.pp_path.specs.Works.{code_level, has_sibling, SplitsAt, AreLast};

/// The child that is searched at a choice, and where the children that are left end: those after `now` and before
/// `end` are still to come.
#[derive(Clone, Copy, Debug, Default, PartialEq, Eq)]
pub struct Level {
    pub now: u64,
    pub end: u64,
}

/// Whether a child is left after the one that is searched.
pub(crate) fn has_sibling(level: Level) -> bool
    ensures { result ≡ has_sibling level }
{
    level.now < level.end && level.end - level.now > 1
}

/// The first level at which a child is left.
pub(crate) fn first_with_sibling(levels: &[Level]) -> Option<usize>
    ensures none { IfNone result (AreLast levels.now) }
    ensures some { IfSome result (SplitsAt levels.now) }
    ensures within { IfSome result (λ place. place < length levels.now) }
    ensures sibling { IfSome result (λ place. has_sibling (slice_index_or levels.now place (code_level 0 0)) ≡ true) }
{
    for i in 0..levels.len() {
        if has_sibling(levels[i]) {
            return Some(i);
        }
    }
    None
}

/// Whether two paths are the same, level by level.
pub(crate) fn same_levels(a: &[Level], b: &[Level]) -> bool
    ensures { IsTrue result ↔ (a.now ≡ b.now) }
{
    if a.len() != b.len() {
        return false;
    }
    for i in 0..a.len() {
        if a[i].now != b[i].now || a[i].end != b[i].end {
            return false;
        }
    }
    true
}
