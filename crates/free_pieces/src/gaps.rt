// The blocks of a section between the free pieces inside it: those that files hold.
ghost use Rattle.std.specs.Prelude.{true, ◌≡◌, ◌≤◌, length};
ghost use Rattle.section.specs.Sections.{Addressable, is_inside};
ghost use Rattle.free_pieces.specs.Gaps.{Gaps, PairFits, pair_copies};

use crate::{Gap, Pair};
use section::Section;

// The blocks from `at` up to a free piece, none if it does not lie inside `whole`.
pub fn gap_before(whole: Section, at: u32, s: Section) -> Gap
    requires addressable { (Addressable whole) × (Addressable s) }
    requires at_le_first { is_inside s whole ≡ true → at ≤ s.first }
    ensures { Gaps whole at s result }
{
    if s.is_inside(whole) {
        return Gap {
            count: s.first - at,
            past: s.end(),
        };
    }
    Gap { count: 0, past: at }
}

impl Pair {
    // How many blocks the merge of the two copies: those of the lower one's buddy that lie between the free pieces. The
    // copies themselves are made by `copy_merge` (blocks): one function of both would be passed the disk and the count.
    pub fn copies(self) -> u32
        requires { PairFits self }
        ensures { result ≡ length (pair_copies self) }
    {
        let buddy = self.lower.buddy();
        if buddy.first == self.upper.first {
            return 0;
        }
        let mut at = buddy.first;
        let mut n: u32 = 0;
        for piece in self.others.as_slice() {
            let gap = gap_before(buddy, at, piece.section());
            n += gap.count;
            at = gap.past;
        }
        n + (buddy.end() - at)
    }
}
