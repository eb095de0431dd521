// A free piece of a height, taken as it is or split from one taken a height up.
ghost use Rattle.std.specs.Prelude.{◌-◌, ◌≤◌};
ghost use Rattle.section.specs.Limits.{greatest_height};
ghost use Rattle.layout.specs.Adding.{take_piece};
ghost use Rattle.free_pieces.specs.Free.{free_of};
ghost use Rattle.free_pieces.specs.Taking.{Stocked, Yields, split_piece, ToHalve, Halves};

use crate::{Drawn, Free};
use piece::Piece;
use section::{Height, Section};

// The lower half of what was drawn is used, the upper half joins the free pieces.
fn halve(d: Drawn, h: u32) -> Drawn
    requires { ToHalve h d }
    ensures { Halves h d result }
{
    let first = d.piece.first();
    let height = Height { value: h };
    let lower = Piece::of(Section { first, height });
    let upper = Piece::of(Section {
        first: first + height.length(),
        height,
    });
    Drawn {
        piece: lower,
        rest: d.rest.with(upper),
    }
}

// Take and split call each other; the number of heights above falls.

// A piece of height `h`: the lowest that is free, or half of one taken a height up.
#[cycle(split_piece_take_piece)]
pub fn take_piece(free: Free, h: u32) -> Option<Drawn>
    requires { (h ≤ greatest_height) × Stocked free }
    ensures { Yields (take_piece (greatest_height - h) h (free_of free)) result }
{
    if let Some(drawn) = free.take_of_height(h) {
        return Some(drawn);
    }
    split_piece(free, h)
}

// Half of a piece taken a height up.
#[cycle(split_piece_take_piece)]
fn split_piece(free: Free, h: u32) -> Option<Drawn>
    requires { (h ≤ greatest_height) × Stocked free }
    ensures { Yields (split_piece (greatest_height - h) h (free_of free)) result }
{
    if h == Height::GREATEST {
        return None;
    }
    let drawn = take_piece(free, h + 1)?;
    Some(halve(drawn, h))
}
