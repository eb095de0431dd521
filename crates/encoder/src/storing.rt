// A table stored as the bytes of a catalogue, front to back: each function writes its bytes from `at` on and answers
// the position after them, and `clear` writes the zero bytes after the last.
//
// `cat`, `at` and `width` go as parameters: a struct of them is no plainer, since each function would promise besides
// that it keeps the reference and the width.
ghost use Rattle.std.specs.Prelude.{map, ◌++◌, ◌≡◌, ◌-◌, ◌≤◌, length, replicate, take};
ghost use Rattle.section.specs.Heights.{NoHigher};
ghost use Rattle.layout.specs.Lists.{Each};
ghost use Rattle.layout.specs.Sound.{Sound};
ghost use Rattle.piece.specs.Packed.{seen};
ghost use Rattle.piece_lists.specs.Few.{list_of, piece_places};
ghost use Rattle.table.specs.Tables.{Sized, file_of, layout_of};
ghost use Rattle.catalogue.specs.Encoding.{big_endian, encode, entries_bytes, entry_bytes};
ghost use Rattle.catalogue.specs.Encoding.{pair_bytes, pairs_bytes};
ghost use Rattle.catalogue.specs.Version.{OneOf, short_field, versions, widest_field};
ghost use Rattle.pieces.specs.Pieces.{Low, LowEntry};
ghost use Rattle.encoder.specs.Store.{Room, Written, header_fields, layout_from, no_files};

use catalogue::Version;
use piece::Piece;
use piece_lists::Pieces;
use section::Section;
use table::{Entry, Table};

// Writes bytes.
fn write_bytes(cat: &mut [u8], at: usize, bytes: &[u8]) -> usize
    requires { Room cat.old at bytes.now }
    ensures { Written cat.old at bytes.now cat.new result }
{
    let end = at + bytes.len();
    cat[at..end].copy_from_slice(bytes);
    end
}

// Writes a number in 2 bytes.
fn write_short(cat: &mut [u8], at: usize, value: u32) -> usize
    requires { Room cat.old at (big_endian short_field value) }
    ensures { Written cat.old at (big_endian short_field value) cat.new result }
{
    let low = (value % 65536) as u16;
    write_bytes(cat, at, &low.to_be_bytes())
}

// Writes a number in `width` bytes, the highest first. In 2 bytes, as most are, it is written by the function that
// knows their number.
fn write_field(cat: &mut [u8], at: usize, width: usize, value: u32) -> usize
    requires width { width ≤ widest_field }
    requires room { Room cat.old at (big_endian width value) }
    ensures { Written cat.old at (big_endian width value) cat.new result }
{
    if width == Version::SHORT_FIELD {
        return write_short(cat, at, value);
    }
    let bytes = value.to_be_bytes();
    write_bytes(cat, at, &bytes[bytes.len() - width..])
}

// Writes first block and length.
fn write_pair(cat: &mut [u8], at: usize, width: usize, s: Section) -> usize
    requires width { width ≤ widest_field }
    requires no_higher { NoHigher s.height }
    requires room { Room cat.old at (pair_bytes width s) }
    ensures { Written cat.old at (pair_bytes width s) cat.new result }
{
    let next = write_field(cat, at, width, s.first);
    write_field(cat, next, width, s.height.length())
}

// Writes the pairs of some pieces.
fn write_pairs(cat: &mut [u8], at: usize, width: usize, pieces: &[Piece]) -> usize
    requires width { width ≤ widest_field }
    requires each { Each Low (seen pieces.now) }
    requires room { Room cat.old at (pairs_bytes width (seen pieces.now)) }
    ensures { Written cat.old at (pairs_bytes width (seen pieces.now)) cat.new result }
{
    let mut next = at;
    for piece in pieces {
        next = write_pair(cat, next, width, piece.section());
    }
    next
}

// Writes a file entry: id, blocks, and the pairs by rising first block.
fn write_entry(cat: &mut [u8], at: usize, width: usize, e: Entry) -> usize
    requires width { width ≤ widest_field }
    requires low_entry { LowEntry e }
    requires room { Room cat.old at (entry_bytes width (file_of e)) }
    ensures { Written cat.old at (entry_bytes width (file_of e)) cat.new result }
{
    let after_id = write_short(cat, at, e.id);
    let after_blocks = write_field(cat, after_id, width, pieces::blocks_of(e));
    let list = pieces::sorted(e);
    write_pairs(cat, after_blocks, width, list.as_slice())
}

// Writes the entries of some files.
fn write_entries(cat: &mut [u8], at: usize, width: usize, files: &[Entry]) -> usize
    requires width { width ≤ widest_field }
    requires each { Each LowEntry files.now }
    requires room { Room cat.old at (entries_bytes width (map file_of files.now)) }
    ensures { Written cat.old at (entries_bytes width (map file_of files.now)) cat.new result }
{
    let mut next = at;
    for entry in files {
        next = write_entry(cat, next, width, *entry);
    }
    next
}

// Writes version, number of blocks and number of files.
fn write_header(cat: &mut [u8], version: Version, blocks: u32, count: u32) -> usize
    requires width { version.width ≤ widest_field }
    requires room { Room cat.old 0 (header_fields version blocks count) }
    ensures { Written cat.old 0 (header_fields version blocks count) cat.new result }
{
    let after_version = write_short(cat, 0, version.number);
    let after_blocks = write_field(cat, after_version, version.width, blocks);
    write_short(cat, after_blocks, count)
}

// Writes zero bytes to the end.
fn clear(cat: &mut [u8], at: usize)
    requires { at ≤ length cat.old }
    ensures { cat.new ≡ take at cat.old ++ replicate (length cat.old - at) 0 }
{
    cat[at..].fill(0);
}

// Writes the catalogue of a layout: header, file entries, free pairs, and zero bytes to the end.
fn store_layout(cat: &mut [u8], version: Version, blocks: u32, files: &[Entry], free: &[Piece])
    requires one_of { OneOf version versions × (length cat.old ≡ version.bytes) }
    requires each { Each LowEntry files.now }
    requires sound { Sound version.heights (layout_from blocks files.now free.now) }
    ensures { cat.new ≡ encode version (layout_from blocks files.now free.now) }
{
    let width = version.width;
    let after_header = write_header(cat, version, blocks, files.len() as u32);
    let after_files = write_entries(cat, after_header, width, files);
    let end = write_pairs(cat, after_files, width, free);
    clear(cat, end);
}

// Writes the catalogue of a table.
pub fn store(cat: &mut [u8], version: Version, t: Table)
    requires one_of { OneOf version versions × (length cat.old ≡ version.bytes) }
    requires sized { Sized t }
    requires sound { Sound version.heights (layout_of t) }
    ensures { cat.new ≡ encode version (layout_of t) }
{
    store_layout(
        cat,
        version,
        t.blocks,
        &t.files[..t.count],
        t.free.as_slice(),
    );
}

// Writes the catalogue of a disk with no file.
pub fn store_fresh(cat: &mut [u8], version: Version, blocks: u32, free: Pieces)
    requires one_of { OneOf version versions × (length cat.old ≡ version.bytes) }
    requires count_le_piece_places { free.count ≤ piece_places }
    requires sound { Sound version.heights (no_files blocks (list_of free)) }
    ensures { cat.new ≡ encode version (no_files blocks (list_of free)) }
{
    store_layout(cat, version, blocks, &[], free.as_slice());
}
