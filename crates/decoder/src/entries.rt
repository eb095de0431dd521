// File entries, each read from its own part of the catalogue.
ghost use Rattle.std.specs.Prelude.{◌≡◌, ◌≤◌};
ghost use Rattle.catalogue.specs.Version.{widest_field};
ghost use Rattle.layout.specs.Layout.{block_count};
ghost use Rattle.piece_lists.specs.Few.{list_of, piece_places};
ghost use Rattle.decoder.specs.Entries.{EntryAt, is_file};

use crate::EntryRead;
use crate::fields::{read_field, read_pairs};
use crate::pieces::sorted;
use catalogue::Version;
use piece_lists::Pieces;
use soundness::in_order;

// Whether the pairs of a list, which sum to `sum`, make a file of an id and n blocks.
#[tactic(auto, unfolding(crate::specs::Entries::is_file))]
fn is_file(id: u32, n: u32, sum: u32, list: Pieces) -> bool
    requires { (list.count ≤ piece_places) × (sum ≡ block_count (list_of list)) }
    ensures { result ≡ is_file id n (list_of list) }
{
    1 <= id && 1 <= n && sum == n && in_order(list)
}

// The entry at the front of a part of the catalogue. A file of more pieces than an entry has places is in no sound
// layout.
pub fn read_entry(s: &[u8], width: usize) -> Option<EntryRead>
    requires { width ≤ widest_field }
    ensures { EntryAt width s.now result }
{
    let front = Version::SHORT_FIELD + width;
    if s.len() < front {
        return None;
    }
    let id = read_field(s, 0, Version::SHORT_FIELD);
    let n = read_field(s, Version::SHORT_FIELD, width);
    let count = n.count_ones() as usize;
    if Pieces::PLACES < count {
        return None;
    }
    let pairs = read_pairs(s, front, count, width)?;
    if !is_file(id, n, pairs.sum, pairs.list) {
        return None;
    }
    Some(EntryRead {
        n,
        size: pairs.end,
        entry: sorted(id, pairs.list),
    })
}
