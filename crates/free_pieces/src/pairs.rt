// The two free pieces to merge, of the lowest height that has two: two that are buddies, else the two lowest. Both are
// found by their places first, and then taken together.
ghost use Rattle.std.specs.Prelude.{count_by, drop, nat_lt, option_and_then, option_map, ◌&&◌, ◌+◌, ◌<◌, ◌≡◌, ◌≤◌};
ghost use Rattle.std.specs.List.{find, position, range_with_len};
ghost use Rattle.section.specs.Limits.{greatest_height, height_count};
ghost use Rattle.layout.specs.Layout.{InOrder, has_height};
ghost use Rattle.layout.specs.Removing.{is_buddy_above};
ghost use Rattle.piece.specs.Packed.{section_in};
ghost use Rattle.free_pieces.specs.Free.{free_places, free_of, Pairs, lowest_pair};
ghost use Rattle.free_pieces.specs.Pairs.{FirstBuddies, PairsAt};

use super::lists::place_of_height;
use crate::{Free, Pair};
use piece::Piece;
use piece_lists::remove_at;
use section::{Height, Section};

// Whether `l` has height `h`, and `u` is its buddy above it.
fn are_buddies(h: u32, l: Section, u: Section) -> bool
    requires { h ≤ greatest_height }
    ensures { result ≡ (has_height h l && is_buddy_above l u) }
{
    l.height.value == h && u == l.buddy() && l.first < u.first
}

// How many pieces have height `h`: a sum of ones, so that no piece needs a branch.
fn count_of_height(pieces: &[Piece], h: u32) -> usize
    ensures { result ≡ count_by (λ x. has_height h (section_in x)) pieces.now }
{
    pieces
        .iter()
        .map(|piece| (piece.height() == h) as usize)
        .sum()
}

// The lowest height that has two pieces, if one has.
fn height_due(pieces: &[Piece]) -> Option<u32>
    ensures { result ≡ find
        (λ h. nat_lt 1 (count_by (λ x. has_height h (section_in x)) pieces.now)) (range_with_len 0 height_count) }
{
    (0..Height::COUNT).find(|h| 1 < count_of_height(pieces, *h))
}

// Where the first piece stands that has height `h` and its buddy above it right behind it. No buddy stands anywhere
// else, if the pieces are in order.
fn place_of_buddies(pieces: &[Piece], h: u32) -> Option<usize>
    requires { h ≤ greatest_height }
    ensures { FirstBuddies h pieces.now result }
{
    pieces
        .windows(2)
        .position(|two| are_buddies(h, two[0].section(), two[1].section()))
}

// Where the lowest piece of height `h` stands, and the next one once that is out.
fn places_of_lowest(pieces: &[Piece], h: u32) -> Option<(usize, usize)>
    ensures { result ≡ option_and_then
        (λ i. option_map (λ j. (i, i + j)) (position (λ x. has_height h (section_in x)) (drop (i + 1) pieces.now)))
        (position (λ x. has_height h (section_in x)) pieces.now) }
{
    let low = place_of_height(pieces, h)?;
    let next = place_of_height(&pieces[low + 1..], h)?;
    Some((low, low + next))
}

impl Free {
    // The piece at place `low`, the one at place `next` of the others, and those that are left.
    fn pair_at(self, low: usize, next: usize) -> Pair
        requires count_le_free_places { self.count ≤ free_places }
        requires low_lt_count { low < self.count }
        requires next_bound { next + 1 < self.count }
        ensures { PairsAt self.count (free_of self) low next result }
    {
        let count = self.count;
        let mut items = self.items;
        let lower = items[low].section();
        remove_at(&mut items, count, low);
        let upper = items[next].section();
        remove_at(&mut items, count - 1, next);
        Pair {
            lower,
            upper,
            others: Free {
                count: count - 2,
                items,
            },
        }
    }

    // The pair to merge at the lowest height that has two, and the others.
    pub fn lowest_pair(self) -> Option<Pair>
        requires count_le_free_places { self.count ≤ free_places }
        requires in_order { InOrder (free_of self) }
        ensures { Pairs self.count (lowest_pair height_count 0 (free_of self)) result }
    {
        let pieces = self.as_slice();
        let h = height_due(pieces)?;
        let (low, next) = match place_of_buddies(pieces, h) {
            Some(low) => (low, low),
            None => places_of_lowest(pieces, h)?,
        };
        Some(self.pair_at(low, next))
    }
}
