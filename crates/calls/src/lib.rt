// The calls that change a table, past the catalogue: on a table that was loaded, and on a lent disk.
#![tactic(auto)]

mod adding;
mod fresh;
mod removing;
mod replacing;

pub use adding::add_in;
pub use fresh::fresh_free;
pub use removing::remove_in;
pub use replacing::replace_in;
use table::Table;

// What an add, a removal or a replacement makes: the number that it answers, and another table.
#[derive(Clone, Copy)]
pub struct Changed {
    pub number: u32,
    pub table: Table,
}
