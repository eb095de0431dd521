// Few pieces in an array, with zero words behind them.
ghost use Rattle.std.specs.Prelude.{◌≡◌, ◌≤◌, length, take};

use piece::Piece;

// The pieces in the first of N places.
pub fn in_places<const N: usize>(pieces: &[Piece]) -> [Piece; N]
    requires room { length pieces.now ≤ N }
    ensures first { take (length pieces.now) result ≡ pieces.now }
{
    let mut items = [Piece { word: 0 }; N];
    items[..pieces.len()].copy_from_slice(pieces);
    items
}
