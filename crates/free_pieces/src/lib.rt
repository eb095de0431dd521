// The free pieces of a layout as a value: one more, one taken, one split, the two to merge, the pieces of a new file.
//
// A list is the first `count` items of an array, so each value stands for one list of the definitions.
#![tactic(auto)]

use piece::Piece;
use piece_lists::Pieces;
use section::Section;

mod allocating;
mod few;
mod gaps;
mod lists;
mod pairs;
mod taking;

pub use allocating::allocate;
pub use gaps::gap_before;
pub use taking::take_piece;

// The free pieces by rising first block. Between a release and its merges there are more than a sound layout has.
#[derive(Clone, Copy)]
pub struct Free {
    pub count: usize,
    pub items: [Piece; Free::PLACES],
}

impl Free {
    // Places for the pieces of a released file beside the others.
    pub const PLACES: usize = 2 * Pieces::PLACES;
}

// A piece that was taken and the pieces that are left.
#[derive(Clone, Copy)]
pub struct Drawn {
    pub piece: Piece,
    pub rest: Free,
}

// The two free sections to merge, of a height that has two, and the other free pieces.
#[derive(Clone, Copy)]
pub struct Pair {
    pub lower: Section,
    pub upper: Section,
    pub others: Free,
}

// A run of blocks up to a free piece, and the block from which on to look for the next.
#[derive(Clone, Copy)]
pub struct Gap {
    pub count: u32,
    pub past: u32,
}

// The pieces of a new file in page order and the free pieces that are left.
#[derive(Clone, Copy)]
pub struct Laid {
    pub pieces: Pieces,
    pub free: Free,
}
