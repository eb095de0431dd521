// The number of free blocks.
ghost use Rattle.looking.specs.Opened.{IsFree, Opened};

use table::Table;

// The sum of the lengths of the free pieces.
pub fn free_in(t: Table) -> u32
    requires { Opened t }
    ensures { IsFree t result }
{
    pieces::blocks_in(&t.free.items[..t.free.count])
}
