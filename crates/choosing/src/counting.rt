// How many blocks the removal of a file would copy. No block is copied, and no file is moved.
ghost use Rattle.choosing.specs.Counting.{CanCount, Counts};

use free_pieces::Free;
use settling::plan;
use table::{Entry, free_with};

// The blocks that the removal of a file would copy: its pieces are put among the free ones, and the merges of these
// are planned to the end.
pub fn copies_for(free: Free, e: Entry) -> u32
    requires { CanCount free e }
    ensures { Counts free e result }
{
    plan(free_with(free, e)).copied
}
