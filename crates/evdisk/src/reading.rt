// The exported calls that change no catalogue and no disk.
ghost use Rattle.std.specs.Prelude.{[], ◌≡◌};
ghost use Rattle.manager.specs.Call.{breaks, check, free, read, which};
ghost use Rattle.manager.specs.Outcomes.{breaks_outcome, check_outcome, free_outcome, perform, read_outcome};
ghost use Rattle.manager.specs.Outcomes.{which_outcome};
ghost use Rattle.evdisk.specs.Codes.{CodeWithinOnes, code_of};
ghost use Rattle.evdisk.specs.ExportedList.{AsPromised, AsPromisedBeside, returned};

use super::codes::code;

// Fills the output with a file's pages from `first` on: the number of pages.
#[unsafe(no_mangle)]
pub extern "C" fn evdisk_read(cat: &[u8], disk: &[u8], id: u16, first: u64, out: &mut [u8]) -> i64
    ensures answer { result
        ≡ code_of (read_outcome id first out.old cat.now disk.now).reply }
    ensures catalogue { cat.exit.now
        ≡ (read_outcome id first out.old cat.now disk.now).catalogue }
    ensures disk { disk.exit.now
        ≡ (read_outcome id first out.old cat.now disk.now).disk }
    ensures output { out.new
        ≡ (read_outcome id first out.old cat.now disk.now).output }
    ensures listed { AsPromised
        (perform (read id first out.old) cat.now disk.now)
        (returned result cat.exit.now disk.exit.now out.new) }
{
    let a = event_disk::read(cat, disk, id, first, out);
    code(a)
}

// The breaks of a file: how many pieces in page order do not start right after the one before them. Whatever disk the
// caller has stays as it is.
#[unsafe(no_mangle)]
pub extern "C" fn evdisk_breaks(cat: &[u8], id: u16) -> i64
    ensures answer { result ≡ code_of (breaks_outcome id cat.now).reply }
    ensures catalogue { cat.exit.now ≡ (breaks_outcome id cat.now).catalogue }
    ensures limit { CodeWithinOnes cat.now id result }
    ensures listed { AsPromisedBeside (perform (breaks id) cat.now) result cat.exit.now [] }
{
    let a = event_disk::breaks(cat, id);
    code(a)
}

// Fills the list with the ids of the files whose removal lets n blocks in: how many, or the number of "fits already".
// Whatever disk the caller has stays as it is.
#[unsafe(no_mangle)]
pub extern "C" fn evdisk_which(cat: &[u8], n: u64, places: &mut [u16]) -> i64
    ensures answer { result ≡ code_of (which_outcome n places.old cat.now).reply }
    ensures catalogue { cat.exit.now
        ≡ (which_outcome n places.old cat.now).catalogue }
    ensures output { places.new
        ≡ (which_outcome n places.old cat.now).output }
    ensures listed { AsPromisedBeside (perform (which n places.old) cat.now) result
        cat.now places.new }
{
    let a = event_disk::which(cat, n, places);
    code(a)
}

// The free blocks. Whatever disk the caller has stays as it is.
#[unsafe(no_mangle)]
pub extern "C" fn evdisk_free(cat: &[u8]) -> i64
    ensures answer { result ≡ code_of (free_outcome cat.now).reply }
    ensures catalogue { cat.exit.now ≡ (free_outcome cat.now).catalogue }
    ensures listed { AsPromisedBeside (perform free cat.now) result cat.exit.now [] }
{
    let a = event_disk::free(cat);
    code(a)
}

// The blocks of the disk, if catalogue and disk are sound.
#[unsafe(no_mangle)]
pub extern "C" fn evdisk_check(cat: &[u8], disk: &[u8]) -> i64
    ensures answer { result ≡ code_of (check_outcome cat.now disk.now).reply }
    ensures catalogue { cat.exit.now
        ≡ (check_outcome cat.now disk.now).catalogue }
    ensures disk { disk.exit.now ≡ (check_outcome cat.now disk.now).disk }
    ensures listed { AsPromised (perform check cat.now disk.now)
        (returned result cat.exit.now disk.exit.now []) }
{
    let a = event_disk::check(cat, disk);
    code(a)
}
