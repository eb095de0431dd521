// The whole catalogue, read into a table.
ghost use Rattle.std.specs.Prelude.{◌≡◌, length};
ghost use Rattle.catalogue.specs.Version.{Served};
ghost use Rattle.soundness.specs.Counts.{Exact};
ghost use Rattle.decoder.specs.Loading.{HeaderAt, TableAt};

use crate::TableRead;
use crate::entries::read_entry;
use crate::fields::{read_field, read_pairs};
use crate::pieces::no_entry;
use catalogue::Version;
use free_pieces::Free;
use piece_lists::Pieces;
use section::Section;
use table::Table;

// An empty table.
pub fn no_table() -> Table
    ensures { Exact result × (result.free.count ≡ 0) }
{
    Table {
        blocks: 0,
        count: 0,
        files: [no_entry(0); Section::MOST_FILES],
        free: Free::none(),
    }
}

// The table after the header: the entries, each read from its own part of the catalogue, and the free pairs, which are
// few in a sound layout.
fn read_body(cat: &[u8], version: Version, blocks: u32, count: usize) -> Option<TableRead>
    requires { Served version × (length cat.now ≡ version.bytes) × HeaderAt version cat.now blocks count }
    ensures { TableAt version cat.now result }
{
    let mut files = [no_entry(0); Section::MOST_FILES];
    let width = version.width;
    let mut at = Version::SHORT_FIELD + width + Version::SHORT_FIELD;
    let mut sum = 0;
    for file in &mut files[..count] {
        let read = read_entry(&cat[at..], width)?;
        *file = read.entry;
        at += read.size;
        sum += read.n;
    }
    let ones = blocks.saturating_sub(sum).count_ones() as usize;
    if Pieces::PLACES < ones {
        return None;
    }
    let pairs = read_pairs(cat, at, ones, width)?;
    Some(TableRead {
        sum,
        free: pairs.sum,
        at: pairs.end,
        table: Table {
            blocks,
            count,
            files,
            free: Free::of(pairs.list),
        },
    })
}

// The table of the catalogue: the header, the entries and the free pairs.
pub fn read_table(cat: &[u8], version: Version) -> Option<TableRead>
    requires { Served version × (length cat.now ≡ version.bytes) }
    ensures { TableAt version cat.now result }
{
    let width = version.width;
    let number = read_field(cat, 0, Version::SHORT_FIELD);
    if number != version.number {
        return None;
    }
    let blocks = read_field(cat, Version::SHORT_FIELD, width);
    let count = read_field(cat, Version::SHORT_FIELD + width, Version::SHORT_FIELD) as usize;
    if Section::MOST_FILES < count {
        return None;
    }
    if version.greatest_blocks() < blocks {
        return None;
    }
    read_body(cat, version, blocks, count)
}
