// The stores of the cases: catalogues of both sizes, and disks of 66 blocks with files of equal contents.
use section::Section;

// The catalogue of version 1, or that of version 2.
#[derive(Clone, Copy)]
pub enum Size {
    Small,
    Large,
}

// The bytes of the catalogue, or one less.
pub(crate) fn catalogue_length(size: Size, short: bool) -> usize {
    match size {
        Size::Small => if short {
            Section::SMALL_CATALOGUE - 1
        } else {
            Section::SMALL_CATALOGUE
        },
        Size::Large => if short {
            Section::LARGE_CATALOGUE - 1
        } else {
            Section::LARGE_CATALOGUE
        },
    }
}

// The number of the version that does not suit the catalogue's length.
pub(crate) fn other_version(size: Size) -> u8 {
    match size {
        Size::Small => 2,
        Size::Large => 1,
    }
}

// Room for one byte more than the large catalogue has.
pub(crate) fn room() -> [u8; Section::LARGE_CATALOGUE + 1] {
    [0; Section::LARGE_CATALOGUE + 1]
}

// A page with a quality letter among bytes that are all the same.
pub(crate) fn page(letter: u8, byte: u8) -> [u8; 512] {
    let mut p = [byte; 512];
    p[6] = letter;
    p
}

// Formats, and adds the files from 1 up to, and not including, `end`, each with the content.
pub(crate) fn fill(cat: &mut [u8], disk: &mut [u8], end: u16, content: &[u8]) {
    let _ = event_disk::format(cat, disk);
    for id in 1..end {
        let _ = event_disk::add(cat, disk, id, content);
    }
}
