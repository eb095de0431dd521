// What a case stores, lends and passes so that the refusals of a call apply that are wanted, which are in the order of
// its checks. Where two cannot apply together, as no file has the id 0, the first does.
//
// A disk of 66 blocks has the files 1, 2 and 3 of one page, or 1 to 64 of one page where it is to be full of files.
use answers::Refusal;
use case_inputs::Call;

// The id behind the last file.
pub(crate) fn end_of_files(wanted: &[Refusal]) -> u16 {
    if wanted.contains(&Refusal::FilesFull) {
        65
    } else {
        4
    }
}

// The bytes of the disk that are lent.
pub(crate) fn disk_length(wanted: &[Refusal]) -> usize {
    if wanted.contains(&Refusal::NoDisk) {
        33281
    } else if wanted.contains(&Refusal::DiskLength) {
        33280
    } else {
        33792
    }
}

// The id that is passed: where none is to be refused, that of no file for an add, else that of a file.
pub(crate) fn id(call: Call, wanted: &[Refusal]) -> u16 {
    if wanted.contains(&Refusal::IdZero) {
        0
    } else if wanted.contains(&Refusal::IdMissing) {
        999
    } else if call == Call::Add && !wanted.contains(&Refusal::IdThere) {
        100
    } else {
        1
    }
}

// The bytes of content or output that are lent: 66 pages where there is to be no space for them, else one; and one more
// where they are not to be whole pages.
pub(crate) fn buffer_length(wanted: &[Refusal]) -> usize {
    let pages = if wanted.contains(&Refusal::NoSpace) {
        33792
    } else {
        512
    };
    pages + usize::from(wanted.contains(&Refusal::BufferLength))
}

// The first page to be read of a file that has one.
pub(crate) fn first_page(wanted: &[Refusal]) -> u64 {
    u64::from(wanted.contains(&Refusal::PastEnd))
}

// The blocks to be let in: one more than are free, or none.
pub(crate) fn blocks(wanted: &[Refusal]) -> u64 {
    if wanted.contains(&Refusal::BufferLength) {
        0
    } else {
        64
    }
}

// The quality letter of the content: outside the four where it is to be unknown.
pub(crate) fn letter(wanted: &[Refusal]) -> u8 {
    if wanted.contains(&Refusal::LetterUnknown) {
        b'm'
    } else {
        b'R'
    }
}

// The quality letter of the files: the lowest of the four where a content's is not to rank above it.
pub(crate) fn stored_letter(wanted: &[Refusal]) -> u8 {
    if wanted.contains(&Refusal::LetterNotAbove) {
        b'R'
    } else {
        b'm'
    }
}
