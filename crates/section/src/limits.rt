// The limits of a block, a disk and a catalogue, as constants of a height and of a section.
ghost use Rattle.std.specs.Prelude.{◌≡◌};
ghost use Rattle.section.specs.Limits.{block_size, greatest_disk, greatest_height, height_count, large_catalogue};
ghost use Rattle.section.specs.Limits.{most_files, small_catalogue, small_height_count};

use crate::{Height, Section};

impl Height {
    // The greatest height.
    pub const GREATEST: u32 = 20;
    // How many heights there are.
    pub const COUNT: u32 = 21;
    // How many a disk with the small catalogue has.
    pub const SMALL_COUNT: u32 = 13;
}

impl Section {
    // The bytes of a block.
    pub const BLOCK_SIZE: usize = 512;
    // The greatest number of blocks of a disk, C.
    pub const GREATEST_DISK: u32 = 1048576;
    // The bytes of the small catalogue.
    pub const SMALL_CATALOGUE: usize = 4096;
    // The bytes of the large catalogue.
    pub const LARGE_CATALOGUE: usize = 16384;
    // The most files of a catalogue.
    pub const MOST_FILES: usize = 64;
}

// The constants are those of the definitions.
pub fn limits_agree()
    ensures block_size { Section.BLOCK_SIZE ≡ block_size }
    ensures greatest_disk { Section.GREATEST_DISK ≡ greatest_disk }
    ensures small_catalogue { Section.SMALL_CATALOGUE ≡ small_catalogue }
    ensures large_catalogue { Section.LARGE_CATALOGUE ≡ large_catalogue }
    ensures most_files { Section.MOST_FILES ≡ most_files }
    ensures greatest_height { Height.GREATEST ≡ greatest_height }
    ensures height_count { Height.COUNT ≡ height_count }
    ensures small_height_count { Height.SMALL_COUNT ≡ small_height_count }
{}
