// The cases that are executed: the limits, look-ups, which removal would let blocks in, every refusal of every call,
// and every call in buffers around the lengths of the catalogues; with the small catalogue and with the large one,
// whose lines are marked.
#![tactic(auto)]

mod asking;
mod buffers;
mod lent;
mod limits;
mod look_ups;
mod printing;
mod refusals;
mod replacing;
mod stores;
mod which;

use case_inputs::Call;
use section::Section;
use std::io;
use stores::Size;

// Writes the lines of the limits.
fn print_limits(rt: &impl Print, cat: &mut [u8], size: Size) -> io::Result<()> {
    limits::print_adds(rt, cat, size)?;
    limits::print_reads(rt, cat, size)?;
    replacing::print_letters(rt, cat, size)?;
    replacing::print_spaces(rt, cat, size)?;
    replacing::print_last_file(rt, cat, size)?;
    replacing::print_result(rt, cat, size)?;
    look_ups::print_look_ups(rt, cat, size)?;
    which::print_lists(rt, cat, size)
}

// Writes the lines of the refusals of all calls.
fn print_refusals(rt: &impl Print, size: Size) -> io::Result<()> {
    for call in Call::ALL {
        refusals::print_rows(rt, call, size)?;
    }
    Ok(())
}

// Writes the lines of all calls in buffers of many lengths.
fn print_buffers(rt: &impl Print, size: Size) -> io::Result<()> {
    for call in Call::ALL {
        buffers::print_buffers(rt, call, size)?;
    }
    Ok(())
}

fn main(rt: HostRuntime) -> io::Result<()> {
    let mut small = [0; Section::SMALL_CATALOGUE];
    print_limits(&rt, &mut small, Size::Small)?;
    print_refusals(&rt, Size::Small)?;
    print_buffers(&rt, Size::Small)?;
    let mut large = [0; Section::LARGE_CATALOGUE];
    print_limits(&rt, &mut large, Size::Large)?;
    print_refusals(&rt, Size::Large)?;
    print_buffers(&rt, Size::Large)
}
