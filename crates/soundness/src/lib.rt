// Whether a table that was read is sound: its sums, the order of its files and free pieces, and that no two pieces
// share a block. No bytes.
#![tactic(auto)]

use piece_lists::Pieces;
use section::Section;

mod checks;
mod noting;
mod order;
mod sharing;

pub use checks::is_sound;
pub use order::in_order;

// What is noted of a table's pieces: the first block of each in one array and its mask in another. They are two arrays
// since a group of either is read at once.
#[derive(Clone, Copy)]
pub struct Notes;

impl Notes {
    // Places for the pieces of all files and the free ones.
    pub const PIECES: usize = Section::MOST_FILES * Pieces::PLACES + Pieces::PLACES;
    // How many pieces are compared with one at once.
    pub const GROUP: usize = 16;
    // The places of the arrays: a group from the last piece on has all its places.
    pub const PLACES: usize = Notes::PIECES + Notes::GROUP;
}
