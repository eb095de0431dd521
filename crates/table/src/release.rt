// Releasing: a file leaves the table, and its pieces are free.
ghost use Rattle.std.specs.Prelude.{◌≡◌, ◌+◌, ◌<◌, ◌≤◌};
ghost use Rattle.layout.specs.Removing.{insert_all};
ghost use Rattle.piece_lists.specs.Places.{first_place};
ghost use Rattle.piece_lists.specs.Few.{piece_places};
ghost use Rattle.free_pieces.specs.Free.{free_of, free_places, Lists};
ghost use Rattle.table.specs.Tables.{InPlaces, Sized, files_of, pieces_in};
ghost use Rattle.table.specs.Files.{entry_at, has_id};
ghost use Rattle.table.specs.Merges.{Released};

use crate::{Entry, Table};
use free_pieces::Free;

// The free pieces with those of a file, from the last one on.
pub fn free_with(free: Free, e: Entry) -> Free
    requires { (InPlaces e) × (free.count + e.pieces.count ≤ free_places) }
    ensures { Lists (free.count + e.pieces.count) (insert_all (pieces_in e) (free_of free)) result }
{
    let mut all = free;
    for piece in e.pieces.as_slice().iter().rev() {
        all.put(*piece);
    }
    all
}

impl Table {
    // The table when the file at place `i`, the first of its id, is gone and its pieces are free.
    pub fn release(self, i: usize) -> Table
        requires sized { Sized self }
        requires i_lt_count { (i < self.count) × (self.free.count ≤ piece_places) }
        requires i_value { i ≡ first_place (has_id (entry_at self i).id) (files_of self) }
        ensures { Released self i result }
    {
        let count = self.count;
        let entry = self.files[i];
        let mut files = self.files;
        files.copy_within(i + 1..count, i);
        Table {
            blocks: self.blocks,
            count: count - 1,
            files,
            free: free_with(self.free, entry),
        }
    }
}
