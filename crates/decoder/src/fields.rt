// Fields and pairs of fields, read at a place of the catalogue.
ghost use Rattle.std.specs.Prelude.{◌+◌, ◌≤◌, length};
ghost use Rattle.catalogue.specs.Version.{short_field, widest_field};
ghost use Rattle.piece_lists.specs.Few.{piece_places};
ghost use Rattle.decoder.specs.Fields.{FieldAt, PairAt, PairsAt};

use crate::{PairRead, PairsRead};
use catalogue::Version;
use piece::Piece;
use piece_lists::Pieces;
use section::{Height, Section};

// The field of 2 bytes at a place.
fn read_short(s: &[u8], at: usize) -> u32
    requires { at + short_field ≤ length s.now }
    ensures { FieldAt short_field s.now at result }
{
    u16::from_be_bytes([s[at], s[at + 1]]) as u32
}

// The field of `width` bytes at a place. One of 2 bytes, as most are, is read without a loop.
pub fn read_field(s: &[u8], at: usize, width: usize) -> u32
    requires { (at + width ≤ length s.now) × (width ≤ widest_field) }
    ensures { FieldAt width s.now at result }
{
    if width == Version::SHORT_FIELD {
        return read_short(s, at);
    }
    let mut value = 0;
    for byte in &s[at..at + width] {
        value = value * 256 + *byte as u32;
    }
    value
}

// The pair at a place, if the bytes reach that far, its length is one, and its first block can be one of a disk.
fn read_pair(s: &[u8], at: usize, width: usize) -> Option<PairRead>
    requires { (at ≤ length s.now) × (width ≤ widest_field) }
    ensures { PairAt width s.now at result }
{
    if s.len() - at < 2 * width {
        return None;
    }
    let first = read_field(s, at, width);
    let length = read_field(s, at + width, width);
    if Section::GREATEST_DISK <= first {
        return None;
    }
    let height = Height::of_length(length)?;
    Some(PairRead {
        length,
        piece: Piece::of(Section { first, height }),
    })
}

// The pairs from a place on, `count` of them.
pub fn read_pairs(s: &[u8], at: usize, count: usize, width: usize) -> Option<PairsRead>
    requires { (at ≤ length s.now) × (count ≤ piece_places) × (width ≤ widest_field) }
    ensures { PairsAt width s.now at count result }
{
    let mut items = [Piece { word: 0 }; Pieces::PLACES];
    let mut sum = 0;
    let mut end = at;
    for item in &mut items[..count] {
        let pair = read_pair(s, end, width)?;
        *item = pair.piece;
        sum += pair.length;
        end += 2 * width;
    }
    Some(PairsRead {
        sum,
        end,
        list: Pieces { count, items },
    })
}
