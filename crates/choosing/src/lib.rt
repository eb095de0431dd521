// Which removals let blocks in that have no room: how many blocks the removal of each file would copy, told from the
// table alone, and the files in the order of these numbers. No disk.
#![tactic(auto)]

use section::Section;

mod counting;
mod listing;
mod ranking;
mod which;

pub use which::which_in;

// A file by its id, and the number of blocks that its removal would copy. Choices are ordered by this number, equal
// numbers by the id.
#[derive(Clone, Copy, PartialEq, Eq, PartialOrd, Ord)]
pub struct Choice {
    pub copies: u32,
    pub id: u32,
}

// Files by these numbers, the fewest first, equal numbers by lower id.
#[derive(Clone, Copy)]
pub struct Choices {
    pub count: usize,
    pub items: [Choice; Section::MOST_FILES],
}
