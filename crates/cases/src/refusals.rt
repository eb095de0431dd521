// Every refusal of a call, by itself and with each later one of its checks: the one that is checked first is returned.
use crate::asking::reply;
use crate::printing::{print_case, print_mark};
use crate::stores::{Size, catalogue_length};
use answers::Refusal;
use case_inputs::{Call, checks};
use std::io;

// Writes what the call gives back where these refusals apply.
fn print_line(rt: &impl Print, call: Call, size: Size, wanted: &[Refusal]) -> io::Result<()> {
    print_mark(rt, size, "large ")?;
    print!(rt; "{call}")?;
    for refusal in wanted {
        print!(rt; " {}", refusal.number())?;
    }
    let bytes = catalogue_length(size, wanted.contains(&Refusal::CatalogueLength));
    print_case(rt, ": ", reply(call, size, bytes, false, wanted))
}

// Writes the lines of a call's refusals.
pub(crate) fn print_rows(rt: &impl Print, call: Call, size: Size) -> io::Result<()> {
    let refusals = checks(call);
    for (i, &first) in refusals.iter().enumerate() {
        print_line(rt, call, size, &[first])?;
        for &second in &refusals[i + 1..] {
            print_line(rt, call, size, &[first, second])?;
        }
    }
    Ok(())
}
