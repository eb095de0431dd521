// Which removals let n blocks in: the conditions in order, then the files and their ids in the caller's list.
ghost use Rattle.std.specs.Prelude.{List, ◌≡◌, ℕ};
ghost use Rattle.table.specs.Tables.{layout_of};
ghost use Rattle.answers.specs.Answers.{reply_of};
ghost use Rattle.looking.specs.Opened.{IsFree, Opened};
ghost use Rattle.choosing.specs.Choosing.{Chosen, which_on};

use crate::counting::copies_for;
use crate::listing::write_ids;
use crate::{Choice, Choices};
use answers::{Answer, Answered, Refusal};
use looking::free_in;
use section::Section;
use table::Table;

// The files whose length and the free blocks are at least n, in the order of the copies of their removals.
fn choices_for(t: Table, n: u64, free: u32) -> Choices
    requires opened { Opened t }
    requires free { IsFree t free }
    ensures { Chosen t n result }
{
    let mut all = Choices::none();
    for e in t.files[..t.count].iter().rev() {
        let room = free + pieces::blocks_of(*e);
        if n <= room as u64 {
            let copies = copies_for(t.free, *e);
            all = all.with(Choice { copies, id: e.id });
        }
    }
    all
}

// The ids of the files whose removal lets n blocks in, fewest copied blocks first, then zeros: how many, or that n
// blocks fit already.
pub fn which_in(t: Table, n: u64, places: &mut [u16]) -> Answer
    requires { Opened t }
    ensures answer { (cat d : List ℕ)
        → reply_of result ≡ (which_on (layout_of t) n places.old cat d).reply }
    ensures output { (cat d : List ℕ)
        → places.new ≡ (which_on (layout_of t) n places.old cat d).output }
{
    if n == 0 {
        return Err(Refusal::BufferLength);
    }
    if places.len() != Section::MOST_FILES {
        return Err(Refusal::ListLength);
    }
    let free = free_in(t);
    if n <= free as u64 {
        places.fill(0);
        return Ok(Answered::FitsAlready);
    }
    let all = choices_for(t, n, free);
    write_ids(places, &all.items[..all.count]);
    Ok(Answered::Number(all.count as u32))
}
