// The limits of replacements, and what they leave.
use crate::printing::{print_case, print_limit, print_mark, print_number, print_same};
use crate::stores;
use crate::stores::{Size, page};
use answers::Answer;
use std::io;

// Writes a line of one letter over another.
fn print_over(rt: &impl Print, size: Size, letter: u8, stored: u8, a: Answer) -> io::Result<()> {
    print_mark(rt, size, "large catalogue, ")?;
    let (letter, stored) = (char::from(letter), char::from(stored));
    print!(rt; "letter {letter} over {stored}")?;
    print_case(rt, ": ", a)
}

// Replaces the first of three files of one page, whose quality letter is `stored`, by a page with `letter`, and writes
// a line. A byte beside the stored letter would rank above all, and one beside the new letter below all.
fn print_letter(
    rt: &impl Print,
    cat: &mut [u8],
    size: Size,
    stored: u8,
    letter: u8,
) -> io::Result<()> {
    let mut disk = [0; 33792];
    stores::fill(cat, &mut disk, 4, &page(stored, b'M'));
    let a = event_disk::replace(cat, &mut disk, 1, &page(letter, b'm'));
    print_over(rt, size, letter, stored, a)
}

// Each of the four letters, and one outside them, over a stored one.
fn print_letters_over(rt: &impl Print, cat: &mut [u8], size: Size, stored: u8) -> io::Result<()> {
    for &letter in b"RDQMm" {
        print_letter(rt, cat, size, stored, letter)?;
    }
    Ok(())
}

// Each letter over each of the four, and over one outside them.
pub(crate) fn print_letters(rt: &impl Print, cat: &mut [u8], size: Size) -> io::Result<()> {
    for &stored in b"mRDQM" {
        print_letters_over(rt, cat, size, stored)?;
    }
    Ok(())
}

// Pages of which the first has this quality letter, and each other one the highest.
fn pages(letter: u8) -> [u8; 65536] {
    let mut content = [b'M'; 65536];
    content[6] = letter;
    content
}

// Replaces a file among those below `end`, each of so many bytes, by one of so many others, and writes a line.
fn print_space(
    rt: &impl Print,
    cat: &mut [u8],
    size: Size,
    words: &str,
    end: u16,
    id: u16,
    old: usize,
    new: usize,
) -> io::Result<()> {
    let mut disk = [0; 33792];
    let stored = pages(b'R');
    let n = old.min(stored.len());
    stores::fill(cat, &mut disk, end, &stored[..n]);
    let content = pages(b'D');
    let m = new.min(content.len());
    let a = event_disk::replace(cat, &mut disk, id, &content[..m]);
    print_limit(rt, size, words, a)
}

// Contents of no byte and of 511; as many pages as are free with the old ones, and one more.
pub(crate) fn print_spaces(rt: &impl Print, cat: &mut [u8], size: Size) -> io::Result<()> {
    print_space(rt, cat, size, "replaced by 0 bytes: ", 4, 1, 512, 0)?;
    print_space(rt, cat, size, "replaced by 511 bytes: ", 4, 1, 512, 511)?;
    print_space(
        rt,
        cat,
        size,
        "63 pages over 3, 60 free: ",
        3,
        1,
        1536,
        32256,
    )?;
    print_space(
        rt,
        cat,
        size,
        "64 pages over 3, 60 free: ",
        3,
        1,
        1536,
        32768,
    )
}

// The last of 64 files, by as many pages as are free with its own, and one more.
pub(crate) fn print_last_file(rt: &impl Print, cat: &mut [u8], size: Size) -> io::Result<()> {
    print_space(rt, cat, size, "the 64th file replaced: ", 65, 64, 512, 512)?;
    print_space(rt, cat, size, "by 3 pages, 2 free: ", 65, 64, 512, 1536)?;
    print_space(rt, cat, size, "by 4 pages, 2 free: ", 65, 64, 512, 2048)
}

// Two pages that differ.
fn two_pages() -> [u8; 1024] {
    let mut pages = [4; 1024];
    pages[6] = b'Q';
    pages
}

// Formats, and adds three files of a page each.
fn add_three(cat: &mut [u8], disk: &mut [u8]) {
    stores::fill(cat, disk, 3, &page(b'R', 2));
    let _ = event_disk::add(cat, disk, 3, &page(b'R', 3));
}

// Reads a file into a buffer of its length, and writes whether its pages are these.
fn print_file(
    rt: &impl Print,
    cat: &[u8],
    disk: &[u8],
    size: Size,
    id: u16,
    out: &mut [u8],
    pages: &[u8],
) -> io::Result<()> {
    let a = event_disk::read(cat, disk, id, 0, out);
    print_mark(rt, size, "large catalogue, ")?;
    print_number(rt, "file ", id as u32)?;
    print_case(rt, " read: ", a)?;
    print_same(rt, size, "its pages: ", out, pages)
}

// Reads the three files, of which the first was replaced by two pages, and the third shifted for it.
fn print_files(rt: &impl Print, cat: &[u8], disk: &[u8], size: Size) -> io::Result<()> {
    let mut two = [0; 1024];
    print_file(rt, cat, disk, size, 1, &mut two, &two_pages())?;
    let mut one = [0; 512];
    print_file(rt, cat, disk, size, 2, &mut one, &page(b'R', 2))?;
    print_file(rt, cat, disk, size, 3, &mut one, &page(b'R', 3))?;
    print_limit(rt, size, "free then: ", event_disk::free(cat))
}

// Removes the first of three files and adds it with two pages; writes whether catalogue and disk are the given ones.
fn print_beside(
    rt: &impl Print,
    cat: &[u8],
    disk: &[u8],
    other: &mut [u8],
    size: Size,
) -> io::Result<()> {
    let mut other_disk = [0; 33792];
    add_three(other, &mut other_disk);
    let a = event_disk::remove(other, &mut other_disk, 1);
    let _ = event_disk::add(other, &mut other_disk, 1, &two_pages());
    print_limit(rt, size, "1 page removed, and 2 added: ", a)?;
    print_same(rt, size, "the catalogue then: ", cat, other)?;
    print_same(rt, size, "the disk then: ", disk, &other_disk)
}

// Replaces the first of three files by two pages; what that leaves is read, and compared with what a removal and an add
// leave.
pub(crate) fn print_result(rt: &impl Print, cat: &mut [u8], size: Size) -> io::Result<()> {
    let mut disk = [0; 33792];
    add_three(cat, &mut disk);
    let a = event_disk::replace(cat, &mut disk, 1, &two_pages());
    print_limit(rt, size, "2 pages over 1: ", a)?;
    print_files(rt, cat, &disk, size)?;
    let mut other = stores::room();
    let n = stores::catalogue_length(size, false).min(other.len());
    print_beside(rt, cat, &disk, &mut other[..n], size)
}
