// Blocks and pages of a lent disk: copies within it, pages written to pieces and read from them, and the quality
// letter of a file's first page.
#![tactic(auto)]

mod disk;
mod reading;

pub use disk::{copy_block, copy_merge, copy_run, write_pages};
pub use reading::{first_letter, read_pages};

// Blocks in a row that hold pages in a row: the first block, and how many there are.
#[derive(Clone, Copy)]
pub struct Run {
    pub first: u32,
    pub left: u32,
}
