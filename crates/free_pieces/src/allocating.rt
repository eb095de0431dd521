// The pieces of a new file: one for each 1 of its number of blocks, taken from the free pieces, the longest first.
ghost use Rattle.section.specs.Limits.{height_count};
ghost use Rattle.layout.specs.Adding.{allocate};
ghost use Rattle.free_pieces.specs.Free.{free_of};
ghost use Rattle.free_pieces.specs.Taking.{Stocked};
ghost use Rattle.free_pieces.specs.Allocating.{Allots};

use super::taking::take_piece;
use crate::{Free, Laid};
use piece::Piece;
use piece_lists::Pieces;
use section::Height;

// A piece for each 1 of `n`, from the highest down.
pub fn allocate(free: Free, n: u32) -> Option<Laid>
    requires { Stocked free }
    ensures { Allots (allocate 0 height_count n (free_of free)) result }
{
    let none = Piece { word: 0 };
    let mut pieces = Pieces {
        count: 0,
        items: [none; Pieces::PLACES],
    };
    let mut left = free;
    for h in (0..=Height::GREATEST).rev() {
        if n / (Height { value: h }).length() % 2 == 1 {
            let drawn = take_piece(left, h)?;
            pieces.items[pieces.count] = drawn.piece;
            pieces.count += 1;
            left = drawn.rest;
        }
    }
    Some(Laid { pieces, free: left })
}
