// Lists of few pieces as values of the code, their orders, and the breaks of those in page order; an item put among
// the first of an array, and one taken out.
//
// A list is the first `count` items of an array, so each value stands for one list of the definitions. One of this size
// is passed on without a call that copies it.
#![tactic(auto)]

ghost use Rattle.std.specs.Prelude.{◌≡◌, ◌≤◌, take};
ghost use Rattle.piece.specs.Packed.{seen};
ghost use Rattle.piece_lists.specs.Few.{list_of, piece_places};

pub use few::in_places;
use piece::Piece;
pub use places::{insert_at, remove_at};
use section::Height;

mod breaks;
mod few;
mod places;
mod sorting;

// Few pieces: no more than a file of a sound layout has, or its free space. A count beside an array, since memory is
// fixed and lists are copied: the kit's vectors of a fixed capacity are no `Copy`.
#[derive(Clone, Copy)]
pub struct Pieces {
    pub count: usize,
    pub items: [Piece; Pieces::PLACES],
}

impl Pieces {
    // A place for a piece of each height: the lengths of a file's pieces are distinct.
    pub const PLACES: usize = Height::COUNT as usize;

    // The pieces of the list.
    pub fn as_slice(&self) -> &[Piece]
        requires count_le_piece_places { self.now.count ≤ piece_places }
        ensures words { result.now ≡ take self.now.count self.now.items }
        ensures listed { seen result.now ≡ list_of self.now }
    {
        &self.items[..self.count]
    }
}

// The orders of pieces: the one of the bytes, by rising first block, and page order, by falling length.
#[derive(Clone, Copy)]
pub enum Order {
    First,
    Length,
}
