// The exported calls that change a catalogue.
ghost use Rattle.std.specs.Prelude.{[], ◌≡◌};
ghost use Rattle.manager.specs.Call.{add, remove, replace};
ghost use Rattle.manager.specs.Outcomes.{add_outcome, format_outcome, perform, remove_outcome, replace_outcome};
ghost use Rattle.evdisk.specs.Codes.{CodeWithinCarries, code_of};
ghost use Rattle.evdisk.specs.ExportedList.{AsPromised, returned};

use super::codes::code;

// Makes the catalogue that of a disk with no file: the number of blocks.
#[unsafe(no_mangle)]
pub extern "C" fn evdisk_format(cat: &mut [u8], disk: &[u8]) -> i64
    ensures answer { result ≡ code_of (format_outcome cat.old disk.now).reply }
    ensures catalogue { cat.new
        ≡ (format_outcome cat.old disk.now).catalogue }
    ensures disk { disk.exit.now ≡ (format_outcome cat.old disk.now).disk }
    ensures listed { AsPromised (format_outcome cat.old disk.now)
        (returned result cat.new disk.exit.now []) }
{
    let a = event_disk::format(cat, disk);
    code(a)
}

// Adds a file: the number of its pages.
#[unsafe(no_mangle)]
pub extern "C" fn evdisk_add(cat: &mut [u8], disk: &mut [u8], id: u16, content: &[u8]) -> i64
    ensures answer { result
        ≡ code_of (add_outcome id content.now cat.old disk.old).reply }
    ensures catalogue { cat.new
        ≡ (add_outcome id content.now cat.old disk.old).catalogue }
    ensures disk { disk.new
        ≡ (add_outcome id content.now cat.old disk.old).disk }
    ensures content { content.exit.now ≡ content.entry.now }
    ensures listed { AsPromised
        (perform (add id content.now) cat.old disk.old)
        (returned result cat.new disk.new []) }
{
    let a = event_disk::add(cat, disk, id, content);
    code(a)
}

// Removes a file: the number of blocks that were copied.
#[unsafe(no_mangle)]
pub extern "C" fn evdisk_remove(cat: &mut [u8], disk: &mut [u8], id: u16) -> i64
    ensures answer { result ≡ code_of (remove_outcome id cat.old disk.old).reply }
    ensures catalogue { cat.new
        ≡ (remove_outcome id cat.old disk.old).catalogue }
    ensures disk { disk.new
        ≡ (remove_outcome id cat.old disk.old).disk }
    ensures limit { CodeWithinCarries cat.old id result }
    ensures listed { AsPromised (perform (remove id) cat.old disk.old)
        (returned result cat.new disk.new []) }
{
    let a = event_disk::remove(cat, disk, id);
    code(a)
}

// Puts a content in the place of a file: the number of blocks that were copied when that was removed.
#[unsafe(no_mangle)]
pub extern "C" fn evdisk_replace(cat: &mut [u8], disk: &mut [u8], id: u16, content: &[u8]) -> i64
    ensures answer { result
        ≡ code_of (replace_outcome id content.now cat.old disk.old).reply }
    ensures catalogue { cat.new
        ≡ (replace_outcome id content.now cat.old disk.old).catalogue }
    ensures disk { disk.new
        ≡ (replace_outcome id content.now cat.old disk.old).disk }
    ensures content { content.exit.now ≡ content.entry.now }
    ensures limit { CodeWithinCarries cat.old id result }
    ensures listed { AsPromised
        (perform (replace id content.now) cat.old disk.old)
        (returned result cat.new disk.new []) }
{
    let a = event_disk::replace(cat, disk, id, content);
    code(a)
}
