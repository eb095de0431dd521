// The calls that change no catalogue: it is loaded once, and the call answers from its table.
ghost use Rattle.std.specs.Prelude.{◌≡◌};
ghost use Rattle.manager.specs.Outcomes.{breaks_outcome, check_outcome, free_outcome, read_outcome, which_outcome};
ghost use Rattle.answers.specs.Answers.{reply_of};
ghost use Rattle.event_disk.specs.Limit.{WithinOnes};

use crate::catalogues::open;
use answers::{Answer, Answered};

// Fills the output with the pages of a file from `first` on, and answers how many.
pub fn read(cat: &[u8], disk: &[u8], id: u16, first: u64, out: &mut [u8]) -> Answer
    ensures answer { reply_of result
        ≡ (read_outcome id first out.old cat.now disk.now).reply }
    ensures catalogue { cat.exit.now
        ≡ (read_outcome id first out.old cat.now disk.now).catalogue }
    ensures disk { disk.exit.now
        ≡ (read_outcome id first out.old cat.now disk.now).disk }
    ensures output { out.new
        ≡ (read_outcome id first out.old cat.now disk.now).output }
{
    let opened = open(cat)?;
    looking::read_in(disk, opened.table, id, first, out)
}

// Answers how many breaks a file has: how many pieces in page order do not start right after the one before them.
pub fn breaks(cat: &[u8], id: u16) -> Answer
    ensures answer { reply_of result ≡ (breaks_outcome id cat.now).reply }
    ensures catalogue { cat.exit.now ≡ (breaks_outcome id cat.now).catalogue }
    ensures limit { WithinOnes cat.now id (reply_of result) }
{
    let opened = open(cat)?;
    looking::breaks_in(opened.table, id)
}

// Fills the list with the ids of the files whose removal alone lets n blocks in, fewest copied blocks first, then
// zeros, and answers how many; or that n blocks fit already.
pub fn which(cat: &[u8], n: u64, places: &mut [u16]) -> Answer
    ensures answer { reply_of result ≡ (which_outcome n places.old cat.now).reply }
    ensures catalogue { cat.exit.now
        ≡ (which_outcome n places.old cat.now).catalogue }
    ensures output { places.new
        ≡ (which_outcome n places.old cat.now).output }
{
    let opened = open(cat)?;
    choosing::which_in(opened.table, n, places)
}

// Answers how many blocks are free.
pub fn free(cat: &[u8]) -> Answer
    ensures answer { reply_of result ≡ (free_outcome cat.now).reply }
    ensures catalogue { cat.exit.now ≡ (free_outcome cat.now).catalogue }
{
    let opened = open(cat)?;
    let n = looking::free_in(opened.table);
    Ok(Answered::Number(n))
}

// Answers how many blocks the disk has, if it is as long as the catalogue says.
pub fn check(cat: &[u8], disk: &[u8]) -> Answer
    ensures answer { reply_of result ≡ (check_outcome cat.now disk.now).reply }
    ensures catalogue { cat.exit.now
        ≡ (check_outcome cat.now disk.now).catalogue }
    ensures disk { disk.exit.now ≡ (check_outcome cat.now disk.now).disk }
{
    let opened = open(cat)?;
    looking::check_in(disk.len(), opened.table)
}
