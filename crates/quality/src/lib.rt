// The quality letter of a miniSEED record, and its rank.
#![tactic(auto)]

ghost use Rattle.std.specs.Prelude.{◌≡◌, nat_lt};
ghost use Rattle.quality.specs.Letters.{letter_place, rank_number, rank_of};

// The rank of a letter: R, D, Q, M, lowest first.
#[derive(Clone, Copy, PartialEq, Eq, PartialOrd, Ord)]
pub enum Rank {
    R,
    D,
    Q,
    M,
}

// A byte that stands where the quality letter does.
#[derive(Clone, Copy)]
pub struct Letter {
    pub byte: u8,
}

impl Letter {
    // The byte of a record, counted from 0, that is its quality letter.
    pub const PLACE: usize = 6;

    // The rank, if the letter is one of the four.
    #[tactic(auto, unfolding(crate::specs::Letters::rank_of))]
    pub fn rank(self) -> Option<Rank>
        ensures { rank_number result ≡ rank_of self.byte }
    {
        match self.byte {
            b'R' => Some(Rank::R),
            b'D' => Some(Rank::D),
            b'Q' => Some(Rank::Q),
            b'M' => Some(Rank::M),
            _ => None,
        }
    }

    // Whether the letter ranks above the other: one outside the four ranks below all.
    pub fn ranks_above(self, other: Letter) -> bool
        ensures { result ≡ nat_lt (rank_of other.byte) (rank_of self.byte) }
    {
        other.rank() < self.rank()
    }
}

// The constant is that of the definition.
pub fn place_agrees()
    ensures place { Letter.PLACE ≡ letter_place }
{}
