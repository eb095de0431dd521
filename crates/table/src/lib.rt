// A layout as a value: its files in an array and its free pieces, a file looked up, added, released and moved, two
// sections merged. No bytes.
//
// A list is the first `count` items of an array, so each value stands for one list of the definitions: `Entry` for a
// file with its pieces in page order, `Table` for a layout.
#![tactic(auto)]

use free_pieces::Free;
use piece_lists::Pieces;
use section::Section;

mod files;
mod look_up;
mod merges;
mod moves;
mod release;

pub use files::with_file;
pub use merges::free_merged;
pub use moves::move_files;
pub use release::free_with;

// A file: its id, and its pieces in page order.
#[derive(Clone, Copy)]
pub struct Entry {
    pub id: u32,
    pub pieces: Pieces,
}

// The disk's blocks, the files by rising id, and the free pieces. The files are counted beside their array, as pieces
// are.
#[derive(Clone, Copy)]
pub struct Table {
    pub blocks: u32,
    pub count: usize,
    pub files: [Entry; Section::MOST_FILES],
    pub free: Free,
}

// What a look-up gives: where the file stands, by how many files stand before it, or none; and the number of ids read.
#[derive(Clone, Copy)]
pub struct LookedUp {
    pub file: Option<usize>,
    pub read: usize,
}
