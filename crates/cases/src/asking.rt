// The calls by their names, each on a store of its own.
use crate::stores::Size;
use crate::{lent, stores};
use answers::{Answer, Refusal};
use case_inputs::Call;

// What `which` gives back where these refusals apply: for that of the list by itself it has one place too few, and for
// it with another one too many.
fn ask_which(cat: &[u8], wanted: &[Refusal]) -> Answer {
    let n = lent::blocks(wanted);
    if !wanted.contains(&Refusal::ListLength) {
        event_disk::which(cat, n, &mut [65535; 64])
    } else if wanted.len() == 1 {
        event_disk::which(cat, n, &mut [65535; 63])
    } else {
        event_disk::which(cat, n, &mut [65535; 65])
    }
}

// What the call gives back where these refusals apply, with the buffer as content or output.
fn ask(
    call: Call,
    cat: &mut [u8],
    disk: &mut [u8],
    buffer: &mut [u8],
    wanted: &[Refusal],
) -> Answer {
    let id = lent::id(call, wanted);
    match call {
        Call::Format => event_disk::format(cat, disk),
        Call::Add => event_disk::add(cat, disk, id, buffer),
        Call::Remove => event_disk::remove(cat, disk, id),
        Call::Replace => event_disk::replace(cat, disk, id, buffer),
        Call::Read => event_disk::read(cat, disk, id, lent::first_page(wanted), buffer),
        Call::Breaks => event_disk::breaks(cat, id),
        Call::Which => ask_which(cat, wanted),
        Call::Free => event_disk::free(cat),
        Call::Check => event_disk::check(cat, disk),
    }
}

// Makes a store in which these refusals can apply. Where it is not to be sound, the byte before the last one is changed:
// it is behind the pairs, where only zeros are sound, and is lent where the last one is not.
fn prepare(cat: &mut [u8], disk: &mut [u8], size: Size, wanted: &[Refusal]) {
    let content = stores::page(lent::stored_letter(wanted), b'M');
    let n = stores::catalogue_length(size, false).min(cat.len());
    stores::fill(&mut cat[..n], disk, lent::end_of_files(wanted), &content);
    if wanted.contains(&Refusal::NotSound) && 2 <= n {
        cat[n - 2] = 1;
    }
}

// Writes the other version's number into the header where it is to be there.
fn swap_version(cat: &mut [u8], size: Size, other: bool) {
    if other && 1 < cat.len() {
        cat[1] = stores::other_version(size);
    }
}

// What the call gives back with so many bytes of the catalogue, where these refusals apply.
fn lend(call: Call, cat: &mut [u8], bytes: usize, disk: &mut [u8], wanted: &[Refusal]) -> Answer {
    let mut buffer = [0; 65536];
    buffer[6] = lent::letter(wanted);
    let c = bytes.min(cat.len());
    let d = lent::disk_length(wanted).min(disk.len());
    let b = lent::buffer_length(wanted).min(buffer.len());
    ask(
        call,
        &mut cat[..c],
        &mut disk[..d],
        &mut buffer[..b],
        wanted,
    )
}

// What the call gives back in a store in which these refusals apply, with so many bytes of a catalogue that has
// its own version, or the other one.
pub(crate) fn reply(
    call: Call,
    size: Size,
    bytes: usize,
    other: bool,
    wanted: &[Refusal],
) -> Answer {
    let mut cat = stores::room();
    let mut disk = [0; 33792];
    prepare(&mut cat, &mut disk, size, wanted);
    swap_version(&mut cat, size, other);
    lend(call, &mut cat, bytes, &mut disk, wanted)
}
