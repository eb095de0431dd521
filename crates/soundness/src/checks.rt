// Whether a table that was read is sound. Sums are tested before blocks that are shared.
ghost use Rattle.section.specs.Limits.{height_count};
ghost use Rattle.std.specs.Prelude.{◌≡◌};
ghost use Rattle.table.specs.Tables.{layout_of};
ghost use Rattle.catalogue.specs.Reading.{is_sound};
ghost use Rattle.soundness.specs.Checking.{sums_agree};
ghost use Rattle.soundness.specs.Counts.{Counted, Exact};

use crate::Notes;
use crate::noting::note_pieces;
use crate::order::in_order;
use crate::sharing::any_shared;
use section::Section;
use table::Table;

// Whether C and the sums of the files' blocks and of the free blocks agree.
fn sums_agree(blocks: u32, sum: u32, free: u32) -> bool
    ensures { result ≡ sums_agree blocks sum free }
{
    if blocks < 1 {
        return false;
    }
    if Section::GREATEST_DISK < blocks {
        return false;
    }
    if blocks < sum {
        return false;
    }
    free == blocks - sum
}

// Whether the table that was read is sound: its files and the number of its free pieces were tested in reading. Once
// the sums agree, the free pieces are few.
pub fn is_sound(table: Table, sum: u32, free: u32) -> bool
    requires { Exact table × Counted table sum free }
    ensures { result ≡ is_sound height_count (layout_of table) }
{
    if !sums_agree(table.blocks, sum, free) {
        return false;
    }
    let list = table.free.few();
    if !in_order(list) {
        return false;
    }
    let mut firsts: [u32; Notes::PLACES] = [Section::GREATEST_DISK; Notes::PLACES];
    let mut masks: [u32; Notes::PLACES] = [0; Notes::PLACES];
    let Some(count) = note_pieces(&mut firsts, &mut masks, &table, list.as_slice()) else {
        return false;
    };
    !any_shared(&firsts, &masks, count)
}
