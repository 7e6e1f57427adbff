// Waking, in place: every thread of a group goes on, and nobody else is looked at.
#![tactic(auto)]

ghost use Rattle.std.specs.Prelude.{◌≡◌};
ghost use Rattle.std.specs.Int.Count.{count_trailing_zeros};
ghost use Rattle.waking.specs.Waking.{Woken};

use cells::{Cell, Lock};

// The lowest thread of a set; 64 where it has none.
pub fn lowest(group: u64) -> usize
    ensures { result ≡ count_trailing_zeros 64 group }
{
    group.trailing_zeros() as usize
}

// Each thread of the set goes on to the program counter, at which it holds: reading with ticket 0, or writing. It looks
// at the lowest thread of those that are left, as long as one is left, and gives the number of looks.
pub fn wake_all(l: &mut Lock, members: u64, pc: u64) -> usize
    ensures { Woken l.old members pc l.new result }
{
    // Kept: a `while` over a set, and no index. The library has no iterator over the bits of a number, and one of this
    // crate's own would be a type with its laws for this one loop.
    let mut rest = members;
    let mut looks: usize = 0;
    while rest != 0 {
        let t = lowest(rest);
        l[Cell::PC + t] = pc;
        l[Cell::ROUTE + t] = 0;
        looks += 1;
        rest &= rest - 1;
    }
    looks
}
