// Section arithmetic, executed by the promises of the crate `section` alone.
#![tactic(auto)]

ghost use Rattle.std.specs.Prelude.{◌≡◌, true, ◌<◌};
ghost use Rattle.section.specs.Heights.{NoHigher};
ghost use Rattle.section.specs.Sections.{buddy_of, is_on_disk};

use section::{Height, Section};
use std::io;

// The buddy of the lower of two sections of one height: it is always on their disk.
fn lower_buddy(lower: Section, upper: Section, blocks: u32) -> Section
    requires no_higher { NoHigher lower.height }
    requires lower_value { is_on_disk blocks lower ≡ true }
    requires upper_value { is_on_disk blocks upper ≡ true }
    requires height_value { upper.height ≡ lower.height }
    requires first_lt_first { lower.first < upper.first }
    ensures answer { result ≡ buddy_of lower }
    ensures on_disk { is_on_disk blocks result ≡ true }
{
    lower.buddy()
}

// Writes a word and a pair: first block and length.
fn print_pair(rt: &impl Print, word: &str, first: u32, length: u32) -> io::Result<()> {
    print!(rt; "{word}{first} {length}")
}

// Writes the parent of a section, and its buddy where it has one on a disk of `blocks` blocks.
fn print_parent_and_buddy(rt: &impl Print, s: Section, blocks: u32) -> io::Result<()>
    requires { NoHigher s.height }
{
    let length = s.height.length();
    print_pair(rt, " parent ", s.parent().first, 2 * length)?;
    if s.has_buddy(blocks) {
        print_pair(rt, " buddy ", s.buddy().first, length)?;
    } else {
        print!(rt; " no buddy")?;
    }
    println!(rt;)
}

// Writes what section arithmetic says of a pair on a disk of `blocks` blocks: a line, whatever the numbers.
fn print_section(rt: &impl Print, first: u32, length: u32, blocks: u32) -> io::Result<()> {
    print_pair(rt, "", first, length)?;
    let Some(height) = Height::of_length(length) else {
        return println!(rt; " no length");
    };
    let s = Section { first, height };
    if s.is_on_disk(blocks) {
        print_parent_and_buddy(rt, s, blocks)
    } else {
        println!(rt; " no section")
    }
}

// Two free sections of case 7: the lower one's buddy is on the disk, and the upper one is not it.
fn check_lower_buddy() {
    let height = Height { value: 1 };
    let lower = Section { first: 0, height };
    let upper = Section { first: 6, height };
    let buddy = lower_buddy(lower, upper, 16);
    prove!(buddy.first == 2);
}

// The disks of cases 3 and 7, and numbers that are no section.
fn print_sections(rt: &impl Print) -> io::Result<()> {
    print_section(rt, 0, 256, 261)?;
    print_section(rt, 256, 4, 261)?;
    print_section(rt, 260, 1, 261)?;
    print_section(rt, 6, 2, 16)?;
    print_section(rt, 12, 4, 16)?;
    print_section(rt, 0, 16, 16)?;
    print_section(rt, 6, 4, 16)?;
    print_section(rt, 14, 4, 16)?;
    print_section(rt, 0, 3, 16)?;
    print_section(rt, 4294967295, 4294967295, 4294967295)
}

// Lengths from the small catalogue's greatest to the large one's, numbers next to them, and the end of a large disk.
fn print_large_sections(rt: &impl Print) -> io::Result<()> {
    print_section(rt, 0, 4096, 8192)?;
    print_section(rt, 0, 8192, 8192)?;
    print_section(rt, 524288, 524288, 1048576)?;
    print_section(rt, 524288, 524288, 1048575)?;
    print_section(rt, 0, 1048576, 1048576)?;
    print_section(rt, 0, 1048576, 1048575)?;
    print_section(rt, 0, 1048577, 1048576)?;
    print_section(rt, 0, 2097152, 1048576)?;
    print_section(rt, 1048575, 1, 1048576)?;
    print_section(rt, 1048574, 1, 1048575)
}

fn main(rt: HostRuntime) -> io::Result<()> {
    check_lower_buddy();
    print_sections(&rt)?;
    print_large_sections(&rt)
}
