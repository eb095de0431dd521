// Whether some two pieces share a block, by their first blocks and masks: each is compared with those after it, in
// groups.
ghost use Rattle.std.specs.Prelude.{not, List, ◌≡◌, ◌≤◌, length};
ghost use Rattle.section.specs.Sections.{Spans};
ghost use Rattle.soundness.specs.Sharing.{Ends, Noted, most_pieces, group_size, none_shared, shares_among};

use crate::Notes;
use section::Section;

// Whether the section with this first block and this mask shares a block with one of the group from `at` on. There is
// no branch inside, so that the compiler compares with all of the group at once.
fn group_shares(
    firsts: &[u32; Notes::PLACES],
    masks: &[u32; Notes::PLACES],
    at: usize,
    first: u32,
    mask: u32,
) -> bool
    requires { at ≤ most_pieces }
    ensures { (l : List Section) (s : Section) → Noted l firsts.now masks.now
        → Spans s first mask → result ≡ shares_among s l at group_size }
{
    let mut found = false;
    for k in 0..Notes::GROUP {
        found |= Section::shares_block(first, mask, firsts[at + k], masks[at + k]);
    }
    found
}

// Whether some two of the first `count` pieces share a block. Both loops are left at the first group with an overlap.
pub fn any_shared(firsts: &[u32; Notes::PLACES], masks: &[u32; Notes::PLACES], count: usize) -> bool
    requires { count ≤ most_pieces }
    ensures { (l : List Section) → length l ≡ count → Noted l firsts.now masks.now
        → Ends l → result ≡ not (none_shared l) }
{
    let mut found = false;
    'pairs: for i in 0..count {
        for j in (i + 1..count).step_by(Notes::GROUP) {
            if group_shares(firsts, masks, j, firsts[i], masks[i]) {
                found = true;
                break 'pairs;
            }
        }
    }
    found
}
