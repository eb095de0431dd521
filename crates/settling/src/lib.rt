// Merging to the end: merges until no height has two free pieces, with the blocks that files hold copied at the step
// of their merge and counted, or counted alone.
#![tactic(auto)]

ghost use Rattle.std.specs.Prelude.{length};
ghost use Rattle.settling.specs.Settling.{CanSettle, Settles};

use free_pieces::Free;
use table::{Table, free_merged, move_files};

mod planning;

pub use planning::plan;

// A table whose merges are done, and the number of blocks that were copied for it.
#[derive(Clone, Copy)]
pub struct Settled {
    pub table: Table,
    pub copied: u32,
}

// The free pieces when the merges are done, and the number of blocks that would be copied for them.
#[derive(Clone, Copy)]
pub struct Planned {
    pub free: Free,
    pub copied: u32,
}

// Merges while a height has two free pieces. The files are moved where they stand, and the free pieces stand beside
// them until the end, so that no turn copies a table.
pub fn settle(disk: &mut [u8], table: Table) -> Settled
    requires { CanSettle table (length disk.old) }
    ensures { Settles table disk.old disk.new result }
{
    let count = table.count;
    let mut files = table.files;
    let mut free = table.free;
    let mut copied: u32 = 0;
    'merges: while let Some(pair) = free.lowest_pair() {
        copied += blocks::copy_merge(disk, pair);
        move_files(&mut files[..count], pair.lower.buddy(), pair.upper);
        free = free_merged(pair);
    }
    Settled {
        table: Table {
            blocks: table.blocks,
            count,
            files,
            free,
        },
        copied,
    }
}
