// The pages of a file.
ghost use Rattle.std.specs.Prelude.{◌≡◌, List, ℕ};
ghost use Rattle.table.specs.Tables.{layout_of};
ghost use Rattle.answers.specs.Answers.{reply_of};
ghost use Rattle.looking.specs.Opened.{Opened, read_on};

use crate::finding::find;
use answers::{Answer, Answered, Refusal};
use section::Section;
use table::Table;

// Fills the output with a file's pages from `first` on.
pub fn read_in(disk: &[u8], t: Table, id: u16, first: u64, out: &mut [u8]) -> Answer
    requires { Opened t }
    ensures answer { (cat : List ℕ)
        → reply_of result ≡ (read_on (layout_of t) id first out.old cat disk.now).reply }
    ensures output { (cat : List ℕ)
        → out.new ≡ (read_on (layout_of t) id first out.old cat disk.now).output }
{
    if disk.len() != Section::BLOCK_SIZE * (t.blocks as usize) {
        return Err(Refusal::DiskLength);
    }
    let i = find(t, id)?;
    if out.len() == 0 {
        return Err(Refusal::BufferLength);
    }
    if out.len() % Section::BLOCK_SIZE != 0 {
        return Err(Refusal::BufferLength);
    }
    let e = t.files[i];
    let n = pieces::blocks_of(e) as usize;
    let count = out.len() / Section::BLOCK_SIZE;
    if count > n {
        return Err(Refusal::PastEnd);
    }
    if first > (n - count) as u64 {
        return Err(Refusal::PastEnd);
    }
    blocks::read_pages(disk, e, first as usize, out);
    Ok(Answered::Number(count as u32))
}
