// The free pieces of a fresh disk: one for each 1 of its number of blocks.
ghost use Rattle.std.specs.Prelude.{◌≤◌};
ghost use Rattle.section.specs.Limits.{greatest_disk};
ghost use Rattle.calls.specs.Fresh.{FreeFor};

use piece::Piece;
use piece_lists::Pieces;
use section::{Height, Section};

// A free piece for each 1 of `blocks`, from the highest down: each starts where the higher ones end.
pub fn fresh_free(blocks: u32) -> Pieces
    requires { blocks ≤ greatest_disk }
    ensures { FreeFor blocks result }
{
    let none = Piece { word: 0 };
    let mut free = Pieces {
        count: 0,
        items: [none; Pieces::PLACES],
    };
    for h in (0..Height::COUNT).rev() {
        let height = Height { value: h };
        let length = height.length();
        if blocks / length % 2 == 1 {
            let first = blocks - blocks % (2 * length);
            free.items[free.count] = Piece::of(Section { first, height });
            free.count += 1;
        }
    }
    free
}
