// Files: their blocks, and their lines.
ghost use Rattle.std.specs.Prelude.{map, ◌≡◌, ◌<◌, ◌≤◌, ◌^◌, All, sum_by};
ghost use Rattle.layout.specs.Lists.{Each, sum_of};
ghost use Rattle.layout.specs.Layout.{file_blocks};
ghost use Rattle.manager.specs.Printing.{file_lines, all_file_lines, first_line};
ghost use Rattle.table.specs.Tables.{file_of, files_of, layout_of};
ghost use Rattle.pieces.specs.Pieces.{LowEntry, LowFiles};
ghost use Rattle.texts.specs.Lines.{Room, Appends};
ghost use Rattle.printing.specs.Texts.{entry_blocks};

use crate::pairs;
use table::{Entry, Table};

// The blocks of all files.
pub fn blocks_of_files(files: &[Entry]) -> u32
    requires low { All LowEntry files.now }
    requires fits { sum_by entry_blocks files.now < 2 ^ 32 }
    ensures { result ≡ sum_by entry_blocks files.now }
{
    files.iter().map(|e| pieces::blocks_of(*e)).sum()
}

// Writes a file line and the file's pairs.
pub fn write_file(out: &mut [u8], at: usize, e: Entry) -> usize
    requires low { LowEntry e }
    requires room { Room at (file_lines (file_of e)) out.old }
    ensures { Appends at (file_lines (file_of e)) out.old out.new result }
{
    let n = pieces::blocks_of(e);
    let list = pieces::sorted(e);
    let next = texts::write_line(out, at, b"file ", e.id, b" blocks ", n);
    pairs::write_pairs(out, next, list.as_slice())
}

// Writes every file.
pub fn write_files(out: &mut [u8], at: usize, files: &[Entry]) -> usize
    requires low { Each LowEntry files.now }
    requires room { Room at (all_file_lines (map file_of files.now)) out.old }
    ensures { Appends at (all_file_lines (map file_of files.now)) out.old out.new result }
{
    let mut next = at;
    for entry in files {
        next = write_file(out, next, *entry);
    }
    next
}

// Writes the first line: the disk's blocks and the free ones.
pub fn write_first_line(out: &mut [u8], at: usize, t: Table) -> usize
    requires low { LowFiles t }
    requires fit { sum_of file_blocks (files_of t) ≤ t.blocks }
    requires room { Room at (first_line (layout_of t)) out.old }
    ensures { Appends at (first_line (layout_of t)) out.old out.new result }
{
    let free = t.blocks - blocks_of_files(&t.files[..t.count]);
    texts::write_line(out, at, b"blocks ", t.blocks, b" free ", free)
}
