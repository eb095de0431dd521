// Reading: the pages of a file in page order, and the quality letter of the first one. Pages in a row mostly lie in
// blocks in a row, so a page is looked for only where a run of blocks ends.
ghost use Rattle.std.specs.Prelude.{◌≡◌, ◌*◌, ◌≤◌, length, take, drop};
ghost use Rattle.section.specs.Limits.{block_size, greatest_disk};
ghost use Rattle.layout.specs.Layout.{block_count, blocks_of};
ghost use Rattle.table.specs.Tables.{pieces_in};
ghost use Rattle.quality.specs.Letters.{first_letter};
ghost use Rattle.manager.specs.Disk.{pages_on, page_count, join_pages};
ghost use Rattle.blocks.specs.DiskCode.{EntryFits, ReadFits};
ghost use Rattle.blocks.specs.Runs.{Follows, RunAt};

use crate::Run;
use crate::disk::store_block;
use quality::Letter;
use section::Section;
use table::Entry;

// The run that starts with a page of a file, and none past its last page.
pub fn run_of_page(e: Entry, page: usize) -> Option<Run>
    requires { EntryFits (block_size * greatest_disk) e }
    ensures { RunAt (blocks_of (pieces_in e)) page result }
{
    let mut rest = page;
    for piece in e.pieces.as_slice() {
        let s = piece.section();
        let n = s.height.length();
        if rest < n as usize {
            let passed = rest as u32;
            return Some(Run {
                first: s.first + passed,
                left: n - passed,
            });
        }
        rest -= n as usize;
    }
    None
}

// The run that starts with a page, from that of the page before it.
pub fn run_on(e: Entry, page: usize, r: Option<Run>) -> Option<Run>
    requires entry_fits { EntryFits (block_size * greatest_disk) e }
    requires follows { Follows (blocks_of (pieces_in e)) page r }
    ensures { RunAt (blocks_of (pieces_in e)) page result }
{
    match r {
        Some(run) if 1 < run.left => Some(Run {
            first: run.first + 1,
            left: run.left - 1,
        }),
        _ => run_of_page(e, page),
    }
}

// Fills the output with the file's pages from `first` on.
pub fn read_pages(disk: &[u8], e: Entry, first: usize, out: &mut [u8])
    requires { ReadFits (length disk.now) (length out.old) first e }
    ensures { out.new
        ≡ join_pages (take (page_count out.old) (drop first (pages_on disk.now (pieces_in e)))) }
{
    let count = out.len() / Section::BLOCK_SIZE;
    let mut run = None;
    for i in 0..count {
        run = run_on(e, first + i, run);
        store_block(out, i, disk, run.unwrap().first as usize);
    }
}

// The quality letter of a file's first page, which lies in the first block of its first piece.
pub fn first_letter(disk: &[u8], e: Entry) -> Letter
    requires entry_fits { EntryFits (length disk.now) e }
    requires bound { 1 ≤ block_count (pieces_in e) }
    ensures { result.byte ≡ first_letter (pages_on disk.now (pieces_in e)) }
{
    let start = Section::BLOCK_SIZE * (e.pieces.as_slice()[0].first() as usize);
    let byte = disk[start + Letter::PLACE];
    Letter { byte }
}
