// Every call in buffers around the lengths of the two catalogues.
use crate::asking::reply;
use crate::printing::{print, print_case, print_mark, print_number};
use crate::stores::{Size, other_version};
use case_inputs::Call;
use section::Section;
use std::io;

// Writes what the call gives back on a catalogue, cut or followed by zeros, in a buffer of so many bytes.
fn print_buffer(
    rt: &impl Print,
    call: Call,
    size: Size,
    bytes: u32,
    other: bool,
) -> io::Result<()> {
    print_mark(rt, size, "large ")?;
    print!(rt; "{call} ")?;
    if other {
        print_number(rt, "of version ", other_version(size) as u32)?;
        print(rt, " ")?;
    }
    print_number(rt, "in ", bytes)?;
    print_case(
        rt,
        " bytes: ",
        reply(call, size, bytes as usize, other, &[]),
    )
}

// Writes the lines of a call for the lengths of the two catalogues, and those next to and between them.
pub(crate) fn print_buffers(rt: &impl Print, call: Call, size: Size) -> io::Result<()> {
    let small = Section::SMALL_CATALOGUE as u32;
    let large = Section::LARGE_CATALOGUE as u32;
    for (bytes, other) in [
        (small - 1, false),
        (small, false),
        (small, true),
        (small + 1, false),
        (small * 2, false),
        (large - 1, false),
        (large, false),
        (large, true),
        (large + 1, false),
    ] {
        print_buffer(rt, call, size, bytes, other)?;
    }
    Ok(())
}
