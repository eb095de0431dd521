// A piece in one word: its first block and its height.
//
// Tables and lists of pieces go by value, so what a call costs depends on how long a piece is.
#![tactic(auto, unfolding(crate::specs::Packed::section_in))]

ghost use Rattle.std.specs.Prelude.{◌≡◌};
ghost use Rattle.piece.specs.Packed.{FitsWord, Packs, section_in};

use section::{Height, Section};

// The first block times the number of heights that a word tells apart, plus the height.
#[derive(Clone, Copy)]
pub struct Piece {
    pub word: u32,
}

impl Piece {
    // How many heights a word tells apart.
    pub const HEIGHTS: u32 = 32;

    // The word of a section. No `From`, which takes any section: only one that fits has a word.
    #[tactic(auto, using(crate::proofs::Packing::packed), unfolding(crate::specs::Packed::piece_of))]
    pub fn of(section: Section) -> Piece
        requires { FitsWord section }
        ensures { Packs section result }
    {
        Piece {
            word: section.first * Piece::HEIGHTS + section.height.value,
        }
    }

    // The section in the word. A `From` is no plainer: this stands beside `height` and `first`, the parts of it.
    pub fn section(self) -> Section
        ensures { result ≡ section_in self }
    {
        Section {
            first: self.word / Piece::HEIGHTS,
            height: Height {
                value: self.word % Piece::HEIGHTS,
            },
        }
    }

    // The height of the section in the word.
    pub fn height(self) -> u32
        ensures { result ≡ (section_in self).height.value }
    {
        self.word % Piece::HEIGHTS
    }

    // The first block of the section in the word.
    pub fn first(self) -> u32
        ensures { result ≡ (section_in self).first }
    {
        self.word / Piece::HEIGHTS
    }
}
