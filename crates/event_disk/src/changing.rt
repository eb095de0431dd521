// The calls that change a catalogue: it is loaded once, and stored once unless the call is refused.
ghost use Rattle.std.specs.Prelude.{◌≡◌};
ghost use Rattle.manager.specs.Outcomes.{add_outcome, remove_outcome, replace_outcome};
ghost use Rattle.answers.specs.Answers.{reply_of};
ghost use Rattle.event_disk.specs.Limit.{WithinCarries};

use crate::catalogues::{open, store_changed};
use answers::Answer;

// Adds a file with the pages of `content`, and answers how many there are.
pub fn add(cat: &mut [u8], disk: &mut [u8], id: u16, content: &[u8]) -> Answer
    ensures answer { reply_of result
        ≡ (add_outcome id content.now cat.old disk.old).reply }
    ensures catalogue { cat.new
        ≡ (add_outcome id content.now cat.old disk.old).catalogue }
    ensures disk { disk.new
        ≡ (add_outcome id content.now cat.old disk.old).disk }
    ensures content { content.exit.now ≡ content.entry.now }
{
    let opened = open(cat)?;
    let changed = calls::add_in(disk, opened.table, id, content)?;
    Ok(store_changed(cat, opened.version, changed))
}

// Removes the file of an id, and answers how many blocks were copied.
pub fn remove(cat: &mut [u8], disk: &mut [u8], id: u16) -> Answer
    ensures answer { reply_of result ≡ (remove_outcome id cat.old disk.old).reply }
    ensures catalogue { cat.new
        ≡ (remove_outcome id cat.old disk.old).catalogue }
    ensures disk { disk.new
        ≡ (remove_outcome id cat.old disk.old).disk }
    ensures limit { WithinCarries cat.old id (reply_of result) }
{
    let opened = open(cat)?;
    let changed = calls::remove_in(disk, opened.table, id)?;
    Ok(store_changed(cat, opened.version, changed))
}

// Puts the pages of `content` in the place of a file whose first page has a quality letter of lower rank, and answers
// how many blocks were copied when that was removed.
pub fn replace(cat: &mut [u8], disk: &mut [u8], id: u16, content: &[u8]) -> Answer
    ensures answer { reply_of result
        ≡ (replace_outcome id content.now cat.old disk.old).reply }
    ensures catalogue { cat.new
        ≡ (replace_outcome id content.now cat.old disk.old).catalogue }
    ensures disk { disk.new
        ≡ (replace_outcome id content.now cat.old disk.old).disk }
    ensures content { content.exit.now ≡ content.entry.now }
    ensures limit { WithinCarries cat.old id (reply_of result) }
{
    let opened = open(cat)?;
    let changed = calls::replace_in(disk, opened.table, id, content)?;
    Ok(store_changed(cat, opened.version, changed))
}
