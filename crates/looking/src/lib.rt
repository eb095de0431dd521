// The calls that only look, past the catalogue: on a table that was loaded.
#![tactic(auto)]

mod breaks;
mod check;
mod finding;
mod free;
mod read;

pub use breaks::breaks_in;
pub use check::check_in;
pub use finding::find;
pub use free::free_in;
pub use read::read_in;
