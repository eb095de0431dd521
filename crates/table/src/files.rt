// The files of a table: one is put in by rising id.
ghost use Rattle.std.specs.Prelude.{nat_le, ◌≡◌, ◌<◌, ◌≤◌};
ghost use Rattle.std.specs.List.{position};
ghost use Rattle.section.specs.Limits.{most_files};
ghost use Rattle.free_pieces.specs.Free.{free_places};
ghost use Rattle.table.specs.Tables.{InPlaces, Sized};
ghost use Rattle.table.specs.Files.{Adds};

use crate::{Entry, Table};
use free_pieces::Free;
use piece_lists::insert_at;

// Where the file of an id stands, or is to stand: at the first whose id is not lower.
fn place_of(files: &[Entry], id: u32) -> Option<usize>
    ensures { result ≡ position (λ x. nat_le id x.id) files.now }
{
    files.iter().position(|x| id <= x.id)
}

// The table with a new file in its place by id, and what is free then.
pub fn with_file(t: Table, e: Entry, free: Free) -> Table
    requires sized { Sized t }
    requires count_lt_most_files { (t.count < most_files) × (InPlaces e) × (free.count ≤ free_places) }
    ensures { Adds t e free result }
{
    let count = t.count;
    let mut files = t.files;
    let place = place_of(&files[..count], e.id).unwrap_or(count);
    insert_at(&mut files[..count + 1], count, place, e);
    Table {
        blocks: t.blocks,
        count: count + 1,
        files,
        free,
    }
}
