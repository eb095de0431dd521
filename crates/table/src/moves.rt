// Moving: what lies inside one section goes to the same distance inside another.
ghost use Rattle.std.specs.Prelude.{map, ◌≡◌};
ghost use Rattle.std.specs.List.{All, position};
ghost use Rattle.section.specs.Sections.{Addressable, is_inside};
ghost use Rattle.layout.specs.Lists.{Each};
ghost use Rattle.piece.specs.Packed.{section_in};
ghost use Rattle.table.specs.Tables.{InPlaces, pieces_in};
ghost use Rattle.table.specs.Moves.{CanMove, PiecesServed, lies_in, moved_entry};

use crate::Entry;
use piece::Piece;
use piece_lists::Pieces;
use section::Section;

// The place of the first of some pieces that lies inside `from`, if one does.
pub(crate) fn place_within(pieces: &[Piece], from: Section) -> Option<usize>
    requires addressable { Addressable from }
    requires served { All (λ x. Addressable (section_in x)) pieces.now }
    ensures { result ≡ position (λ x. is_inside (section_in x) from) pieces.now }
{
    pieces
        .iter()
        .position(|piece| piece.section().is_inside(from))
}

impl Entry {
    // The place of the first piece that lies inside `from`, if one does.
    pub fn place_inside(self, from: Section) -> Option<usize>
        requires in_places { InPlaces self }
        requires addressable { Addressable from }
        requires pieces_served { PiecesServed self }
        ensures { result ≡ position (lies_in from) (pieces_in self) }
    {
        place_within(self.pieces.as_slice(), from)
    }

    // The file with its pieces moved.
    pub fn moved(self, from: Section, to: Section) -> Entry
        requires in_places { InPlaces self }
        requires can_move { CanMove from to (pieces_in self) }
        ensures { result ≡ moved_entry from to self }
    {
        let count = self.pieces.count;
        let mut items = self.pieces.items;
        for piece in &mut items[..count] {
            *piece = Piece::of(piece.section().moved(from, to));
        }
        Entry {
            id: self.id,
            pieces: Pieces { count, items },
        }
    }
}

// Moves the pieces of files. A file with no piece inside `from` is not written.
pub fn move_files(files: &mut [Entry], from: Section, to: Section)
    requires in_places { Each InPlaces files.old }
    requires addressable { Addressable from × Addressable to }
    requires pieces_served { Each PiecesServed files.old }
    ensures { files.new ≡ map (moved_entry from to) files.old }
{
    for entry in files {
        if entry.place_inside(from).is_some() {
            *entry = entry.moved(from, to);
        }
    }
}
