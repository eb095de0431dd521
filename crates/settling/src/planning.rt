// How many blocks merging to the end would copy, told from the free pieces alone. Nothing is copied, and no file is
// moved.
ghost use Rattle.settling.specs.Planning.{CanPlan, Plans};

use crate::Planned;
use free_pieces::Free;
use table::free_merged;

// The merges of the free pieces to the end, and the number of their copies.
pub fn plan(free: Free) -> Planned
    requires { CanPlan free }
    ensures { Plans free result }
{
    let mut left = free;
    let mut copied: u32 = 0;
    'merges: while let Some(pair) = left.lowest_pair() {
        copied += pair.copies();
        left = free_merged(pair);
    }
    Planned { free: left, copied }
}
