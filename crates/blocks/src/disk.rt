// Blocks and pages: copies within the disk, and pages written to the blocks of pieces.
//
// Every function works on the caller's bytes in place, block by block.
ghost use Rattle.std.specs.Prelude.{◌≡◌, ◌*◌, ◌≤◌, length, drop};
ghost use Rattle.section.specs.Limits.{block_size, greatest_disk};
ghost use Rattle.layout.specs.Layout.{block_run, blocks_of};
ghost use Rattle.layout.specs.Removing.{copy_run};
ghost use Rattle.free_pieces.specs.Gaps.{PairFits, pair_copies};
ghost use Rattle.table.specs.Tables.{pieces_in};
ghost use Rattle.manager.specs.Disk.{block, store_block, page_count, cut_pages, write_pages};
ghost use Rattle.blocks.specs.DiskCode.{HasBlock, HasRun, MergeFits, WriteFits, Copied};

use free_pieces::{Pair, gap_before};
use section::Section;
use table::Entry;

// Copies the bytes of block `from` to block `to`.
pub fn copy_block(disk: &mut [u8], from: u32, to: u32)
    requires has_block { HasBlock (length disk.old) from }
    requires has_block_2 { HasBlock (length disk.old) to }
    ensures { disk.new ≡ store_block disk.old to (block disk.old from) }
{
    let source = Section::BLOCK_SIZE * (from as usize);
    let target = Section::BLOCK_SIZE * (to as usize);
    disk.copy_within(source..source + Section::BLOCK_SIZE, target);
}

// Copies the `n` blocks from `from` on to the places from `to` on, in order, and answers how many copies it made.
pub fn copy_run(disk: &mut [u8], from: u32, to: u32, n: u32) -> u32
    requires has_run { HasRun (length disk.old) from n }
    requires has_run_2 { HasRun (length disk.old) to n }
    requires disk_len_bound { length disk.old ≤ block_size * greatest_disk }
    ensures copies { Copied disk.old disk.new (copy_run from to n) n result }
    ensures all { result ≡ n }
{
    // Block by block, since the two runs may have blocks in common.
    let mut made = 0;
    for i in 0..n {
        copy_block(disk, from + i, to + i);
        made += 1;
    }
    made
}

// Makes the copies of a merge, the blocks of the lower section's buddy that lie between the free pieces to the upper
// one, and answers how many.
pub fn copy_merge(disk: &mut [u8], p: Pair) -> u32
    requires merge_fits { MergeFits (length disk.old) p.lower p.upper }
    requires pair_fits { PairFits p }
    ensures { Copied disk.old disk.new (pair_copies p) greatest_disk result }
{
    let upper = p.upper;
    let others = p.others;
    let buddy = p.lower.buddy();
    if buddy.first == upper.first {
        return 0;
    }
    let mut at = buddy.first;
    let mut copied: u32 = 0;
    for piece in &others.items[..others.count] {
        let gap = gap_before(buddy, at, piece.section());
        let made = copy_run(disk, at, upper.first + (at - buddy.first), gap.count);
        copied += made;
        at = gap.past;
    }
    let made = copy_run(disk, at, upper.first + (at - buddy.first), buddy.end() - at);
    copied + made
}

// Stores block `from` of `source` in block `to` of `target`. This and `copy_block` are two functions: one lends two
// buffers, the other moves bytes within one.
pub fn store_block(target: &mut [u8], to: usize, source: &[u8], from: usize)
    requires has_block { HasBlock (length target.old) to }
    requires has_block_2 { HasBlock (length source.now) from }
    ensures { target.new ≡ store_block target.old to (block source.now from) }
{
    let first = Section::BLOCK_SIZE * from;
    let place = Section::BLOCK_SIZE * to;
    // By bytes, since the library's copy between buffers is a call of `memmove`, which the archive for C does without.
    for i in 0..Section::BLOCK_SIZE {
        target[place + i] = source[first + i];
    }
}

// Writes the `n` pages of the content from `page` on to the blocks from `to` on.
fn write_run(disk: &mut [u8], to: usize, content: &[u8], page: usize, n: usize)
    requires has_run { HasRun (length disk.old) to n }
    requires has_run_2 { HasRun (length content.now) page n }
    ensures { disk.new
        ≡ write_pages disk.old (block_run to n) (cut_pages n (drop (block_size * page) content.now)) }
{
    for k in 0..n {
        store_block(disk, to + k, content, page + k);
    }
}

// Writes the pages of the content to the blocks of a file's pieces.
pub fn write_pages(disk: &mut [u8], content: &[u8], e: Entry)
    requires { WriteFits (length disk.old) (length content.now) e }
    ensures { disk.new
        ≡ write_pages disk.old (blocks_of (pieces_in e))
        (cut_pages (page_count content.now) content.now) }
{
    let mut page: usize = 0;
    for piece in e.pieces.as_slice() {
        let s = piece.section();
        let n = s.height.length() as usize;
        write_run(disk, s.first as usize, content, page, n);
        page += n;
    }
}
