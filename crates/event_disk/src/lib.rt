// The nine calls on a lent catalogue and a lent disk: whatever the buffers and numbers, an answer or a named
// refusal.
#![tactic(auto)]

mod catalogues;
mod changing;
mod formatting;
mod reading;

use catalogue::Version;
pub use changing::{add, remove, replace};
pub use formatting::format;
pub use reading::{breaks, check, free, read, which};
use table::Table;

// A catalogue that a call works on: its version and its table.
#[derive(Clone, Copy)]
pub struct Opening {
    pub version: Version,
    pub table: Table,
}
