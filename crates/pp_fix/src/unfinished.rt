//! The list of the unfinished goals.
ghost use Rattle.std.specs.Prelude.{◌≡◌, ◌≤◌, ◌^◌, ◌<◌, [], length, vec_capacity, vec_len};
ghost use Rattle.pp_fix.specs.Marked.{marked};

use pp_term::Numbers;

/// The numbers of the goals whose flag is up, ascending, in a vector that has room for all of them.
pub(crate) fn listed(room: Vec<u32>, flags: &[bool]) -> Numbers
    requires empty { room.items ≡ [] }
    requires room { length flags.now ≤ vec_capacity room }
    requires few { length flags.now < 2 ^ 32 }
    ensures { result ≡ marked 1 flags.now }
{
    let mut list = room;
    for (i, flag) in flags.iter().enumerate() {
        if *flag {
            list.push_reserved(i as u32 + 1);
        }
    }
    Numbers::from_vec(list)
}
