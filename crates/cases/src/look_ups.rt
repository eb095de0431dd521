// Look-ups: the file or none, and how many ids are read, in catalogues whose ids are known.
ghost use Rattle.looking.specs.Opened.{Opened};

use crate::printing::{print, print_mark, print_number};
use crate::stores;
use crate::stores::Size;
use catalogue::Version;
use std::io;
use table::Table;

// Looks an id up, and writes the file that is found, or none, and how many ids were read.
fn print_looked_up(rt: &impl Print, t: Table, id: u32) -> io::Result<()>
    requires { Opened t }
{
    let looked = t.look_up(id);
    match looked.file {
        Some(i) => print_number(rt, "file ", t.files[i].id)?,
        None => print(rt, "none")?,
    }
    println!(rt; ", ids read: {}", looked.read)
}

// Looks an id up in a catalogue as a call does, once the bytes were read.
fn print_found(rt: &impl Print, cat: &[u8], id: u32) -> io::Result<()> {
    let version = Version::of_length(cat.len());
    if cat.len() != version.bytes {
        return print(rt, "not the length of a catalogue\n");
    }
    match decoder::load(cat, version) {
        Some(table) => print_looked_up(rt, table, id),
        None => print(rt, "not sound\n"),
    }
}

// Looks an id up in a catalogue, and writes a line.
fn print_look_up(rt: &impl Print, cat: &[u8], size: Size, id: u16, ids: &str) -> io::Result<()> {
    print_mark(rt, size, "large catalogue, ")?;
    print_number(rt, "id ", id as u32)?;
    print(rt, ids)?;
    print_found(rt, cat, id as u32)
}

// In no file.
fn print_no_file(rt: &impl Print, cat: &[u8], size: Size) -> io::Result<()> {
    for id in [0, 1, 65535] {
        print_look_up(rt, cat, size, id, " in no file: ")?;
    }
    Ok(())
}

// In three files: below all, equal to one, between two, above all.
fn print_three(rt: &impl Print, cat: &[u8], size: Size) -> io::Result<()> {
    for id in [0, 1, 2, 3, 5, 8, 9, 10, 65535] {
        print_look_up(rt, cat, size, id, " in 2, 5, 9: ")?;
    }
    Ok(())
}

// In the two files whose ids are farthest apart.
fn print_farthest(rt: &impl Print, cat: &[u8], size: Size) -> io::Result<()> {
    for id in [0, 1, 2, 65534, 65535] {
        print_look_up(rt, cat, size, id, " in 1, 65535: ")?;
    }
    Ok(())
}

// In as many files as there can be.
fn print_most(rt: &impl Print, cat: &[u8], size: Size) -> io::Result<()> {
    for id in [0, 1, 33, 64, 65, 65535] {
        print_look_up(rt, cat, size, id, " in 1 to 64: ")?;
    }
    Ok(())
}

// Formats, and adds two files of a page each.
fn add_two(cat: &mut [u8], disk: &mut [u8], a: u16, b: u16) {
    let _ = event_disk::format(cat, disk);
    let _ = event_disk::add(cat, disk, a, &[7; 512]);
    let _ = event_disk::add(cat, disk, b, &[7; 512]);
}

// Three files, and then two of them, when one is gone.
fn print_three_and_two(
    rt: &impl Print,
    cat: &mut [u8],
    disk: &mut [u8],
    size: Size,
) -> io::Result<()> {
    add_two(cat, disk, 9, 2);
    let _ = event_disk::add(cat, disk, 5, &[7; 512]);
    print_three(rt, cat, size)?;
    let _ = event_disk::remove(cat, disk, 5);
    print_look_up(rt, cat, size, 5, " in 2, 9: ")
}

pub(crate) fn print_look_ups(rt: &impl Print, cat: &mut [u8], size: Size) -> io::Result<()> {
    let mut disk = [0; 33792];
    let _ = event_disk::format(cat, &disk);
    print_no_file(rt, cat, size)?;
    print_three_and_two(rt, cat, &mut disk, size)?;
    add_two(cat, &mut disk, 65535, 1);
    print_farthest(rt, cat, size)?;
    stores::fill(cat, &mut disk, 65, &[7; 512]);
    print_most(rt, cat, size)
}
