// The versions of a catalogue. Its bytes are definitions and laws here, and the code over them is in crates above.
#![tactic(auto)]

ghost use Rattle.std.specs.Prelude.{◌≡◌, ◌≤◌};
ghost use Rattle.catalogue.specs.Version.{Served, greatest_blocks, version_for};
ghost use Rattle.section.specs.Limits.{greatest_disk};

use section::{Height, Section};

// How a layout is stored: the number in the header, the bytes of a field for a number of blocks, those of the whole
// catalogue, and how many heights there are.
#[derive(Clone, Copy)]
pub struct Version {
    pub number: u32,
    pub width: usize,
    pub bytes: usize,
    pub heights: u32,
}

impl Version {
    // The bytes of a field for a version, a number of files or an id.
    pub const SHORT_FIELD: usize = 2;

    // The version that format makes in a buffer of `n` bytes, and version 1 where no version has this length. That is no
    // Option, since `version_for` is so, which the manager's conditions cite; who calls it compares the length.
    pub fn of_length(n: usize) -> Version
        ensures { result ≡ version_for n }
    {
        if n == Section::LARGE_CATALOGUE {
            Version {
                number: 2,
                width: 4,
                bytes: Section::LARGE_CATALOGUE,
                heights: Height::COUNT,
            }
        } else {
            Version {
                number: 1,
                width: 2,
                bytes: Section::SMALL_CATALOGUE,
                heights: Height::SMALL_COUNT,
            }
        }
    }

    // The greatest number of blocks of a disk.
    pub fn greatest_blocks(self) -> u32
        requires { Served self }
        ensures answer { result ≡ greatest_blocks self }
        ensures most { result ≤ greatest_disk }
    {
        let greatest = Height {
            value: self.heights - 1,
        };
        greatest.length()
    }
}
