// The pieces of a table, noted for the comparison of every two: the first blocks in one array, the masks in another.
ghost use Rattle.section.specs.Limits.{height_count, most_files};
ghost use Rattle.std.specs.Prelude.{true, List, [], ◌++◌, ◌≡◌, ◌*◌, ◌≤◌, ◌+◌, length};
ghost use Rattle.std.specs.Option.{IfSome, is_some};
ghost use Rattle.piece.specs.Packed.{seen};
ghost use Rattle.piece_lists.specs.Few.{piece_places};
ghost use Rattle.free_pieces.specs.Free.{free_of};
ghost use Rattle.table.specs.Tables.{files_of, layout_of};
ghost use Rattle.catalogue.specs.Reading.{every, sound_file, sound_piece};
ghost use Rattle.soundness.specs.Counts.{Exact};
ghost use Rattle.soundness.specs.Sharing.{Noted, NotesOf};

use crate::Notes;
use piece::Piece;
use section::{Height, Section};
use table::Table;

// Whether a piece is a section of the disk.
fn is_piece(section: Section, blocks: u32) -> bool
    ensures { result ≡ sound_piece height_count blocks section }
{
    section.height.value <= Height::GREATEST && section.is_on_disk(blocks)
}

// Notes these pieces from a place on, and answers the place after them, if all of them are sections of the disk.
fn note_list(
    firsts: &mut [u32; Notes::PLACES],
    masks: &mut [u32; Notes::PLACES],
    at: usize,
    pieces: &[Piece],
    blocks: u32,
) -> Option<usize>
    requires { (length pieces.now ≤ piece_places) × (at ≤ most_files * piece_places) }
    ensures end { IfSome result (λ n. n ≡ at + length pieces.now) }
    ensures disk { is_some result ≡ every (sound_piece height_count blocks) (seen pieces.now) }
    ensures noted { (l : List Section) → length l ≡ at → Noted l firsts.old masks.old
        → IfSome result (λ n. Noted (l ++ seen pieces.now) firsts.new masks.new) }
{
    for (i, piece) in pieces.iter().enumerate() {
        let section = piece.section();
        if !is_piece(section, blocks) {
            return None;
        }
        firsts[at + i] = section.first;
        masks[at + i] = section.mask();
    }
    Some(at + pieces.len())
}

// Notes all pieces of a table, each file's and then the free ones, and answers the place after the last, if the files
// stand by rising id and all pieces are sections of the disk.
pub fn note_pieces(
    firsts: &mut [u32; Notes::PLACES],
    masks: &mut [u32; Notes::PLACES],
    table: &Table,
    free: &[Piece],
) -> Option<usize>
    requires exact { Exact table.now × (length free.now ≤ piece_places) × (seen free.now ≡ free_of table.now.free) }
    requires table_value { every sound_file (files_of table.now) ≡ true }
    requires noted { Noted [] firsts.old masks.old }
    ensures { NotesOf (layout_of table.now) firsts.new masks.new result }
{
    let mut last: u32 = 0;
    let mut at: usize = 0;
    for entry in &table.files[..table.count] {
        if entry.id <= last {
            return None;
        }
        last = entry.id;
        at = note_list(firsts, masks, at, entry.pieces.as_slice(), table.blocks)?;
    }
    note_list(firsts, masks, at, free, table.blocks)
}
