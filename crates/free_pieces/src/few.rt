// Lists with few pieces: the free pieces of a sound layout in as many places as they need, and back.
ghost use Rattle.std.specs.Prelude.{◌≡◌, ◌≤◌, take};
ghost use Rattle.piece.specs.Packed.{seen};
ghost use Rattle.piece_lists.specs.Few.{list_of, piece_places, ListsFew};
ghost use Rattle.free_pieces.specs.Free.{free_of, free_places, Lists};

use crate::Free;
use piece::Piece;
use piece_lists::{Pieces, in_places};

impl Free {
    // The free pieces.
    pub fn as_slice(&self) -> &[Piece]
        requires count_le_free_places { self.now.count ≤ free_places }
        ensures words { result.now ≡ take self.now.count self.now.items }
        ensures listed { seen result.now ≡ free_of self.now }
    {
        &self.items[..self.count]
    }

    // The free pieces, where they are few.
    pub fn few(self) -> Pieces
        requires { self.count ≤ piece_places }
        ensures { ListsFew self.count (free_of self) result }
    {
        let items = in_places(self.as_slice());
        Pieces {
            count: self.count,
            items,
        }
    }

    // Few pieces as free pieces.
    pub fn of(list: Pieces) -> Free
        requires { list.count ≤ piece_places }
        ensures { Lists list.count (list_of list) result }
    {
        let items = in_places(list.as_slice());
        Free {
            count: list.count,
            items,
        }
    }
}
