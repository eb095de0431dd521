// Section arithmetic: heights and lengths, sections of a disk and their buddies. Operations on the bits of
// block numbers stand here alone.
//
// Which numbers are served. `Height::of_length` takes any number, and its answer to what is no length is `None`.
// `is_on_disk` takes any first block and any number of blocks. Every other function asks for what a section of a disk
// gives: a height up to the greatest, which `of_length` answers, and a first block of some disk, by `is_on_disk`.
// `shares_block` takes any four numbers, and its answer holds of every two aligned sections that they belong to.
#![tactic(auto)]

mod limits;

ghost use Rattle.std.specs.Prelude.{◌≡◌, ◌-◌};
ghost use Rattle.section.specs.Heights.{NoHigher, IsLength, height_of};
ghost use Rattle.section.specs.Sections.{Addressable, end_of, buddy_of, parent_of, is_aligned, is_on_disk, has_buddy};
ghost use Rattle.section.specs.Sections.{Spans, length_of, shares_block, is_inside, moved_into};

pub use limits::limits_agree;

// The height of a section: its length is 2 to the height.
#[derive(Clone, Copy, PartialEq, Eq)]
pub struct Height {
    pub value: u32,
}

impl Height {
    // The number of blocks.
    pub fn length(self) -> u32
        requires { NoHigher self }
        ensures { IsLength self result }
    {
        1 << self.value
    }

    // The height whose length is `n`, if `n` is a length.
    pub fn of_length(n: u32) -> Option<Height>
        ensures { result ≡ height_of n }
    {
        match n {
            1 => Some(Height { value: 0 }),
            2 => Some(Height { value: 1 }),
            4 => Some(Height { value: 2 }),
            8 => Some(Height { value: 3 }),
            16 => Some(Height { value: 4 }),
            32 => Some(Height { value: 5 }),
            64 => Some(Height { value: 6 }),
            128 => Some(Height { value: 7 }),
            256 => Some(Height { value: 8 }),
            512 => Some(Height { value: 9 }),
            1024 => Some(Height { value: 10 }),
            2048 => Some(Height { value: 11 }),
            4096 => Some(Height { value: 12 }),
            8192 => Some(Height { value: 13 }),
            16384 => Some(Height { value: 14 }),
            32768 => Some(Height { value: 15 }),
            65536 => Some(Height { value: 16 }),
            131072 => Some(Height { value: 17 }),
            262144 => Some(Height { value: 18 }),
            524288 => Some(Height { value: 19 }),
            1048576 => Some(Height { value: 20 }),
            _ => None,
        }
    }
}

// The blocks from `first` on, as many as the height's length.
#[derive(Clone, Copy, PartialEq, Eq)]
pub struct Section {
    pub first: u32,
    pub height: Height,
}

impl Section {
    // The bits below that of the length.
    pub fn mask(self) -> u32
        requires { NoHigher self.height }
        ensures { result ≡ length_of self - 1 }
    {
        self.height.length() - 1
    }

    // Whether the first block is a multiple of the length.
    pub fn is_aligned(self) -> bool
        requires { NoHigher self.height }
        ensures { result ≡ is_aligned self }
    {
        self.first & self.mask() == 0
    }

    // The block after the last.
    pub fn end(self) -> u32
        requires { Addressable self }
        ensures { result ≡ end_of self }
    {
        self.first + self.height.length()
    }

    // Whether the section is one of a disk of `blocks` blocks.
    pub fn is_on_disk(self, blocks: u32) -> bool
        requires { NoHigher self.height }
        ensures { result ≡ is_on_disk blocks self }
    {
        let length = self.height.length();
        if blocks < length {
            return false;
        }
        if blocks - length < self.first {
            return false;
        }
        self.is_aligned()
    }

    // The buddy: it starts at the first block with the bit of the length flipped.
    pub fn buddy(self) -> Section
        requires { NoHigher self.height }
        ensures { result ≡ buddy_of self }
    {
        Section {
            first: self.first ^ self.height.length(),
            height: self.height,
        }
    }

    // Whether the buddy is a section of a disk of `blocks` blocks.
    #[tactic(auto, unfolding(crate::specs::Sections::has_buddy))]
    pub fn has_buddy(self, blocks: u32) -> bool
        requires { NoHigher self.height }
        ensures { result ≡ has_buddy blocks self }
    {
        self.buddy().is_on_disk(blocks)
    }

    // The section of which the section and its buddy are the halves.
    pub fn parent(self) -> Section
        requires { NoHigher self.height }
        ensures { result ≡ parent_of self }
    {
        let length = 2 * self.height.length();
        Section {
            first: self.first / length * length,
            height: Height {
                value: self.height.value + 1,
            },
        }
    }

    // Whether two sections have a block in common, by their first blocks, a and b, and their masks, n and m: the first
    // blocks differ only below the bit of the longer one's length. Who compares many sections finds each mask once.
    pub fn shares_block(a: u32, n: u32, b: u32, m: u32) -> bool
        ensures { (s t : Section) → Spans s a n → Spans t b m → result ≡ shares_block s t }
    {
        (a ^ b) & !(n | m) == 0
    }

    // Whether every block of the section is one of the other's.
    #[tactic(auto, unfolding(crate::specs::Sections::is_inside))]
    pub fn is_inside(self, other: Section) -> bool
        requires addressable { Addressable self }
        requires addressable_2 { Addressable other }
        ensures { result ≡ is_inside self other }
    {
        other.first <= self.first && self.end() <= other.end()
    }

    // Where the section is once all that lies inside `from` has moved to `to`: at the same distance, or where it was.
    #[tactic(auto, unfolding(crate::specs::Sections::moved_into, crate::specs::Sections::is_inside))]
    pub fn moved(self, from: Section, to: Section) -> Section
        requires addressable { Addressable self }
        requires addressable_2 { Addressable from }
        requires addressable_3 { Addressable to }
        ensures { result ≡ moved_into from to self }
    {
        if self.is_inside(from) {
            Section {
                first: to.first + (self.first - from.first),
                height: self.height,
            }
        } else {
            self
        }
    }
}
