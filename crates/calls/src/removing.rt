// Removing: the conditions in order, then the release and the merges.
ghost use Rattle.std.specs.Prelude.{length};
ghost use Rattle.table.specs.Tables.{layout_of};
ghost use Rattle.looking.specs.Opened.{Opened};
ghost use Rattle.calls.specs.Changing.{Makes, remove_on};
ghost use Rattle.calls.specs.TakingOut.{CanTakeOut, TakesOut};

use crate::Changed;
use answers::Refusal;
use looking::find;
use section::Section;
use settling::{Settled, settle};
use table::Table;

// The file at place `i` taken out: it is released, and its pieces are merged with the free ones to the end.
pub fn take_out(disk: &mut [u8], t: Table, i: usize) -> Settled
    requires { CanTakeOut t i (length disk.old) }
    ensures { TakesOut t i disk.old disk.new result }
{
    let released = t.release(i);
    settle(disk, released)
}

// A removal on a loaded table: the conditions past the catalogue, then the release and the merges.
pub fn remove_in(disk: &mut [u8], t: Table, id: u16) -> Result<Changed, Refusal>
    requires { Opened t }
    ensures { Makes t.blocks (λ v cat. remove_on v (layout_of t) id cat disk.old)
        disk.new result }
{
    if disk.len() != Section::BLOCK_SIZE * (t.blocks as usize) {
        return Err(Refusal::DiskLength);
    }
    let i = find(t, id)?;
    let s = take_out(disk, t, i);
    Ok(Changed {
        number: s.copied,
        table: s.table,
    })
}
