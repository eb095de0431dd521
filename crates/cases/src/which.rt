// Which removal would let so many blocks in: what is answered, and the list afterwards; and what the removals do.
use crate::printing::{print, print_answer, print_case, print_limit, print_mark, print_number};
use crate::stores;
use crate::stores::Size;
use std::io;

// Writes a number that stands so many times from place i on, after what parts it from those before: places from 16, 32
// and 48 on begin a line.
fn print_run(rt: &impl Print, i: usize, n: u16, times: usize) -> io::Result<()> {
    if i == 0 {
        print(rt, ": ")?;
    } else if i % 16 == 0 {
        print(rt, ",\n  ")?;
    } else {
        print(rt, ", ")?;
    }
    if times != 1 {
        print!(rt; "{times} times ")?;
    }
    print!(rt; "{n}")
}

// Writes a list, equal numbers that follow each other as one.
fn print_list(rt: &impl Print, list: &[u16]) -> io::Result<()> {
    for (i, &n) in list.iter().enumerate() {
        if i == 0 || list[i - 1] != n {
            let times = list[i..].iter().take_while(|m| **m == n).count();
            print_run(rt, i, n, times)?;
        }
    }
    Ok(())
}

// Asks for n blocks with this list, and writes a line.
fn print_asked(
    rt: &impl Print,
    cat: &[u8],
    size: Size,
    n: u64,
    list: &mut [u16],
    files: &str,
) -> io::Result<()> {
    let a = event_disk::which(cat, n, list);
    print_mark(rt, size, "large catalogue, ")?;
    print!(rt; "which {n}{files}")?;
    print_answer(rt, a)?;
    print_list(rt, list)?;
    print(rt, "\n")
}

// Asks with a list of 64 other numbers.
fn print_which(rt: &impl Print, cat: &[u8], size: Size, n: u64, files: &str) -> io::Result<()> {
    print_asked(rt, cat, size, n, &mut [65535; 64], files)
}

// Case 6 of document 01: files of 3 blocks, 1 and 2 are added to 16.
fn add_case_six(cat: &mut [u8], disk: &mut [u8]) {
    let _ = event_disk::format(cat, disk);
    let _ = event_disk::add(cat, disk, 5, &[7; 1536]);
    let _ = event_disk::add(cat, disk, 9, &[7; 512]);
    let _ = event_disk::add(cat, disk, 2, &[7; 1024]);
}

// 10 blocks are free then.
fn print_case_six(rt: &impl Print, cat: &[u8], size: Size) -> io::Result<()> {
    for n in [1, 10, 11, 12, 13, 14, 18446744073709551615, 0] {
        print_which(rt, cat, size, n, " in case 6: ")?;
    }
    Ok(())
}

// The same disk, and lists that have not 64 places.
fn print_places(rt: &impl Print, cat: &[u8], size: Size) -> io::Result<()> {
    print_asked(rt, cat, size, 11, &mut [65535; 0], " in case 6, no place: ")?;
    print_asked(
        rt,
        cat,
        size,
        11,
        &mut [65535; 63],
        " in case 6, 63 places: ",
    )?;
    print_asked(
        rt,
        cat,
        size,
        11,
        &mut [65535; 65],
        " in case 6, 65 places: ",
    )
}

// The files 1 to 4 of 3 blocks each and then 6 of 2 are added to 16.
fn add_five(cat: &mut [u8], disk: &mut [u8]) {
    stores::fill(cat, disk, 5, &[7; 1536]);
    let _ = event_disk::add(cat, disk, 6, &[7; 1024]);
}

// 2 blocks are free then.
fn print_five(rt: &impl Print, cat: &[u8], size: Size) -> io::Result<()> {
    for n in [2, 3, 5, 6, 17] {
        print_which(rt, cat, size, n, " in five files: ")?;
    }
    Ok(())
}

// Removes one of the five files by itself, then adds what that lets in, and writes a line of each.
fn print_removed(
    rt: &impl Print,
    cat: &mut [u8],
    size: Size,
    id: u16,
    words: &str,
    bytes: usize,
) -> io::Result<()> {
    let mut disk = [0; 8192];
    let content = [7; 2560];
    add_five(cat, &mut disk);
    let a = event_disk::remove(cat, &mut disk, id);
    print_mark(rt, size, "large catalogue, ")?;
    print_number(rt, "file ", id as u32)?;
    print_case(rt, " of the five removed: ", a)?;
    let n = bytes.min(content.len());
    let b = event_disk::add(cat, &mut disk, 9, &content[..n]);
    print_limit(rt, size, words, b)
}

// All five, in the order in which they are named.
fn print_five_removed(rt: &impl Print, cat: &mut [u8], size: Size) -> io::Result<()> {
    print_removed(rt, cat, size, 6, "4 blocks then: ", 2048)?;
    print_removed(rt, cat, size, 1, "5 blocks then: ", 2560)?;
    print_removed(rt, cat, size, 4, "5 blocks then: ", 2560)?;
    print_removed(rt, cat, size, 2, "5 blocks then: ", 2560)?;
    print_removed(rt, cat, size, 3, "5 blocks then: ", 2560)
}

// 64 files of one block on 65: the free one is the buddy of the last file's.
fn print_most(rt: &impl Print, cat: &mut [u8], size: Size) -> io::Result<()> {
    let mut disk = [0; 33280];
    stores::fill(cat, &mut disk, 65, &[7; 512]);
    for n in [1, 2, 3] {
        print_which(rt, cat, size, n, " in 64 files: ")?;
    }
    Ok(())
}

// 16 free blocks.
fn print_no_file(rt: &impl Print, cat: &mut [u8], size: Size) -> io::Result<()> {
    let _ = event_disk::format(cat, &[0; 8192]);
    print_which(rt, cat, size, 16, " in no file: ")?;
    print_which(rt, cat, size, 17, " in no file: ")
}

pub(crate) fn print_lists(rt: &impl Print, cat: &mut [u8], size: Size) -> io::Result<()> {
    let mut disk = [0; 8192];
    add_case_six(cat, &mut disk);
    print_case_six(rt, cat, size)?;
    print_places(rt, cat, size)?;
    add_five(cat, &mut disk);
    print_five(rt, cat, size)?;
    print_five_removed(rt, cat, size)?;
    print_most(rt, cat, size)?;
    print_no_file(rt, cat, size)
}
