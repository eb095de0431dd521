// The bytes of a catalogue: a table is read from them, and refused unless it is sound.
#![tactic(auto)]

ghost use Rattle.std.specs.Prelude.{◌≡◌, IfSome, length};
ghost use Rattle.catalogue.specs.Version.{Served};
ghost use Rattle.catalogue.specs.Reading.{read_catalogue};
ghost use Rattle.decoder.specs.Loading.{Judged, Ready, SomeTableAt, reading_of};

use catalogue::Version;
use piece::Piece;
use piece_lists::Pieces;
use soundness::is_sound;
use table::{Entry, Table};
use tables::read_table;
use zeros::is_zero_from;

pub mod entries;
pub mod fields;
pub mod pieces;
pub mod tables;
pub mod zeros;

// A pair: the piece and its length.
#[derive(Clone, Copy)]
pub struct PairRead {
    pub length: u32,
    pub piece: Piece,
}

// Pairs in the order of the bytes, the sum of their lengths, and the place after them.
#[derive(Clone, Copy)]
pub struct PairsRead {
    pub sum: u32,
    pub end: usize,
    pub list: Pieces,
}

// A file's entry that a sound layout can have: its blocks n, its bytes, and the file.
#[derive(Clone, Copy)]
pub struct EntryRead {
    pub n: u32,
    pub size: usize,
    pub entry: Entry,
}

// The table of the catalogue: the blocks of its files and of its free pieces, and where it ends.
#[derive(Clone, Copy)]
pub struct TableRead {
    pub sum: u32,
    pub free: u32,
    pub at: usize,
    pub table: Table,
}

// Whether what was read is a sound table, with zero bytes alone after it.
fn is_sound_read(cat: &[u8], version: Version, read: TableRead) -> bool
    requires { Served version × SomeTableAt version cat.now read }
    ensures { Judged version cat.now read.table result }
{
    is_zero_from(cat, read.at) && is_sound(read.table, read.sum, read.free)
}

// The table of a catalogue, if its bytes are sound.
#[tactic(auto, unfolding(crate::specs::Loading::reading_of))]
pub fn load(cat: &[u8], version: Version) -> Option<Table>
    requires { Served version × (length cat.now ≡ version.bytes) }
    ensures reading { reading_of result ≡ read_catalogue version cat.now }
    ensures ready { IfSome result (λ t. Ready t) }
{
    let read = read_table(cat, version)?;
    if !is_sound_read(cat, version, read) {
        return None;
    }
    Some(read.table)
}
