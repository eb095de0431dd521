// The limits of adds and of reads.
use crate::printing::print_limit;
use crate::stores::{Size, fill};
use std::io;

// Adds a file of so many bytes after those of lower ids, and writes a line.
fn print_add(
    rt: &impl Print,
    cat: &mut [u8],
    size: Size,
    words: &str,
    id: u16,
    bytes: usize,
) -> io::Result<()> {
    let mut disk = [0; 65536];
    let content = [7; 512];
    fill(cat, &mut disk, id, &content);
    let n = bytes.min(content.len());
    let a = event_disk::add(cat, &mut disk, id, &content[..n]);
    print_limit(rt, size, words, a)
}

// Reads of a file of 3 pages, and writes a line.
fn print_read(
    rt: &impl Print,
    cat: &mut [u8],
    size: Size,
    words: &str,
    first: u64,
    bytes: usize,
) -> io::Result<()> {
    let mut disk = [0; 65536];
    let mut pages = [7; 1536];
    fill(cat, &mut disk, 2, &pages);
    let n = bytes.min(pages.len());
    let a = event_disk::read(cat, &disk, 1, first, &mut pages[..n]);
    print_limit(rt, size, words, a)
}

// Contents of 511 and of 512 bytes, the 64th file and the 65th.
pub(crate) fn print_adds(rt: &impl Print, cat: &mut [u8], size: Size) -> io::Result<()> {
    print_add(rt, cat, size, "content of 511 bytes: ", 1, 511)?;
    print_add(rt, cat, size, "content of 512 bytes: ", 1, 512)?;
    print_add(rt, cat, size, "the 64th file: ", 64, 512)?;
    print_add(rt, cat, size, "the 65th file: ", 65, 512)
}

// Pages up to the end of a file, and past it.
pub(crate) fn print_reads(rt: &impl Print, cat: &mut [u8], size: Size) -> io::Result<()> {
    print_read(rt, cat, size, "of 3 pages, first 2, count 1: ", 2, 512)?;
    print_read(rt, cat, size, "of 3 pages, first 2, count 2: ", 2, 1024)?;
    let words = "first 18446744073709551615, count 1: ";
    print_read(rt, cat, size, words, 18446744073709551615, 512)
}
