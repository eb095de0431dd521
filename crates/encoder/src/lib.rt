// The bytes of a catalogue, from a table.
#![tactic(auto)]

mod storing;

pub use storing::{store, store_fresh};
