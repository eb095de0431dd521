// Adding: the conditions in order, then the pieces, the pages and the new table.
ghost use Rattle.std.specs.Prelude.{◌≡◌, ◌*◌, ◌≤◌, length};
ghost use Rattle.section.specs.Limits.{block_size};
ghost use Rattle.table.specs.Tables.{layout_of};
ghost use Rattle.looking.specs.Opened.{Opened};
ghost use Rattle.calls.specs.Changing.{Makes, add_on};
ghost use Rattle.calls.specs.Adding.{CanAdd, Places};

use crate::Changed;
use answers::Refusal;
use looking::free_in;
use section::Section;
use table::{Entry, Table};

// The file's pieces taken, its pages written, and the table with it.
pub fn place_file(disk: &mut [u8], t: Table, id: u32, n: u32, content: &[u8]) -> Table
    requires { CanAdd t id n (length disk.old) content.now }
    ensures { Places t id content.now disk.old disk.new result }
{
    let laid = free_pieces::allocate(t.free, n).unwrap();
    let e = Entry {
        id,
        pieces: laid.pieces,
    };
    blocks::write_pages(disk, content, e);
    table::with_file(t, e, laid.free)
}

// An add on a disk as long as its table says, under an id above zero: the other conditions, then the pages and the new
// table. They stand in a function of their own so that LLVM does not take the last call for a rare one, which would be
// compiled apart and would copy the table.
fn add_file(disk: &mut [u8], t: Table, id: u16, content: &[u8]) -> Result<Changed, Refusal>
    requires opened { Opened t }
    requires disk_len { (length disk.old ≡ block_size * t.blocks) × (1 ≤ id) }
    ensures { Makes t.blocks (λ v cat. add_on v (layout_of t) id content.now cat disk.old)
        disk.new result }
{
    if let Some(_) = t.look_up(id as u32).file {
        return Err(Refusal::IdThere);
    }
    if content.len() == 0 {
        return Err(Refusal::BufferLength);
    }
    if content.len() % Section::BLOCK_SIZE != 0 {
        return Err(Refusal::BufferLength);
    }
    if t.count >= Section::MOST_FILES {
        return Err(Refusal::FilesFull);
    }
    let pages = content.len() / Section::BLOCK_SIZE;
    let free = free_in(t);
    if (free as usize) < pages {
        return Err(Refusal::NoSpace);
    }
    let n = pages as u32;
    let table = place_file(disk, t, id as u32, n, content);
    Ok(Changed { number: n, table })
}

// An add on a loaded table: the conditions past the catalogue, then the pages and the new table.
pub fn add_in(disk: &mut [u8], t: Table, id: u16, content: &[u8]) -> Result<Changed, Refusal>
    requires { Opened t }
    ensures { Makes t.blocks (λ v cat. add_on v (layout_of t) id content.now cat disk.old)
        disk.new result }
{
    if disk.len() != Section::BLOCK_SIZE * (t.blocks as usize) {
        return Err(Refusal::DiskLength);
    }
    if id == 0 {
        return Err(Refusal::IdZero);
    }
    add_file(disk, t, id, content)
}
