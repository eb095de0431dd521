// The breaks of few pieces in page order.
ghost use Rattle.std.specs.Prelude.{◌≡◌, ◌<◌, ◌≤◌, ◌^◌, All};
ghost use Rattle.section.specs.Sections.{Addressable};
ghost use Rattle.layout.specs.Layout.{break_between, breaks_of};
ghost use Rattle.layout.specs.Lists.{Each};
ghost use Rattle.piece.specs.Packed.{section_in};
ghost use Rattle.piece_lists.specs.Few.{breaks_between, list_of, piece_places};

use crate::Pieces;
use piece::Piece;

// 1 if `next` does not start right after `before`, else 0.
fn break_between(before: Piece, next: Piece) -> u32
    requires { Addressable (section_in before) }
    ensures { result ≡ break_between (section_in before) (section_in next) }
{
    u32::from(next.first() != before.section().end())
}

// The sum of these over each of the pieces and the one after it.
fn breaks_in(pieces: &[Piece]) -> u32
    requires each { All (λ p. Addressable (section_in p)) pieces.now }
    requires fits { breaks_between pieces.now < 2 ^ 32 }
    ensures { result ≡ breaks_between pieces.now }
{
    pieces
        .iter()
        .zip(pieces.iter().skip(1))
        .map(|(before, next)| break_between(*before, *next))
        .sum()
}

impl Pieces {
    // How many pieces do not start right after the one before them, counted as they are compared.
    pub fn breaks(self) -> u32
        requires count_le_piece_places { self.count ≤ piece_places }
        requires each { Each Addressable (list_of self) }
        ensures { result ≡ breaks_of (list_of self) }
    {
        breaks_in(self.as_slice())
    }
}
