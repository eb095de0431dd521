// The order of pieces in the bytes.
ghost use Rattle.std.specs.Prelude.{◌≡◌, ◌≤◌};
ghost use Rattle.std.specs.List.{list_all};
ghost use Rattle.piece_lists.specs.Few.{list_of, piece_places};
ghost use Rattle.piece.specs.Packed.{section_in};
ghost use Rattle.soundness.specs.Order.{in_order, in_turn};

use piece::Piece;
use piece_lists::Pieces;

// Whether `b` may stand after `a`: it starts later and has another length.
fn follows(a: Piece, b: Piece) -> bool
    ensures { result ≡ in_turn (section_in a) (section_in b) }
{
    a.first() < b.first() && a.height() != b.height()
}

// Whether all of these may stand after `a`.
fn all_follow(a: Piece, others: &[Piece]) -> bool
    ensures { result ≡ list_all (λ b. in_turn (section_in a) (section_in b)) others.now }
{
    others.iter().all(|b| follows(a, *b))
}

// Whether first blocks rise and lengths are distinct.
pub fn in_order(list: Pieces) -> bool
    requires { list.count ≤ piece_places }
    ensures { result ≡ in_order (list_of list) }
{
    let pieces = list.as_slice();
    for (i, a) in pieces.iter().enumerate() {
        if !all_follow(*a, &pieces[i + 1..]) {
            return false;
        }
    }
    true
}
