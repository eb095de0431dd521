// Replacing: the conditions in order, then the old file is taken out and the new one placed on what that leaves.
ghost use Rattle.table.specs.Tables.{layout_of};
ghost use Rattle.looking.specs.Opened.{Opened};
ghost use Rattle.calls.specs.Changing.{Makes, replace_on};
ghost use Rattle.calls.specs.Replacing.{CanCompare, CanExchange};

use crate::Changed;
use crate::adding::place_file;
use crate::removing::take_out;
use answers::Refusal;
use looking::{find, free_in};
use quality::Letter;
use section::Section;
use table::Table;

// The file at place `i` taken out, and the new one of its id placed: the answer is the blocks that were copied.
fn exchange(
    disk: &mut [u8],
    t: Table,
    i: usize,
    id: u32,
    n: u32,
    content: &[u8],
) -> Result<Changed, Refusal>
    requires { CanExchange t i id n content.now disk.old }
    ensures { Makes t.blocks
        (λ v cat. replace_on v (layout_of t) id content.now cat disk.old)
        disk.new result }
{
    let s = take_out(disk, t, i);
    let left = s.table;
    let table = place_file(disk, left, id, n, content);
    Ok(Changed {
        number: s.copied,
        table,
    })
}

// A replacement of the file at place `i` by a content of whole pages: the letters, the space, then the exchange. They
// stand in a function of their own for the reason that `add_file` gives.
fn replace_found(
    disk: &mut [u8],
    t: Table,
    i: usize,
    id: u32,
    content: &[u8],
) -> Result<Changed, Refusal>
    requires { CanCompare t i id content.now disk.old }
    ensures { Makes t.blocks
        (λ v cat. replace_on v (layout_of t) id content.now cat disk.old)
        disk.new result }
{
    let new = Letter {
        byte: content[Letter::PLACE],
    };
    if new.rank().is_none() {
        return Err(Refusal::LetterUnknown);
    }
    let e = t.files[i];
    let old = blocks::first_letter(disk, e);
    if !new.ranks_above(old) {
        return Err(Refusal::LetterNotAbove);
    }
    let pages = content.len() / Section::BLOCK_SIZE;
    let free = free_in(t);
    let held = pieces::blocks_of(e);
    let room = free + held;
    if (room as usize) < pages {
        return Err(Refusal::NoSpace);
    }
    exchange(disk, t, i, id, pages as u32, content)
}

// A replacement on a loaded table: the conditions past the catalogue, then the removal and the add.
pub fn replace_in(disk: &mut [u8], t: Table, id: u16, content: &[u8]) -> Result<Changed, Refusal>
    requires { Opened t }
    ensures { Makes t.blocks
        (λ v cat. replace_on v (layout_of t) id content.now cat disk.old)
        disk.new result }
{
    if disk.len() != Section::BLOCK_SIZE * (t.blocks as usize) {
        return Err(Refusal::DiskLength);
    }
    let i = find(t, id)?;
    if content.len() == 0 {
        return Err(Refusal::BufferLength);
    }
    if content.len() % Section::BLOCK_SIZE != 0 {
        return Err(Refusal::BufferLength);
    }
    replace_found(disk, t, i, id as u32, content)
}
