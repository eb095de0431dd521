// Prints the catalogue that stands on standard input, small or large, as document 01 has it in "Printing a catalogue".
//
// `print_input` makes the whole text, for every input, and `print_read` the text for what a reader gives; `main` only
// names the reader and the writer.
#![tactic(auto)]

ghost use Rattle.std.specs.Prelude.{◌≡◌, ◌+◌, ◌<◌, ◌≤◌, length, take, IfOk, IfSome, OnOk};
ghost use Rattle.std.specs.Io.KnownBytes.{Appends, Consumes, IsAtEnd};
ghost use Rattle.catalogue.specs.Version.{version2};
ghost use Rattle.manager.specs.Printing.{printed};
ghost use Rattle.texts.specs.Lines.{Prints};
ghost use Rattle.printing.specs.Texts.{text_room};

use answers::Refusal;
use catalogue::Version;
use section::Section;
use std::io;
use std::io::{Read, Write};

// Room for one byte more than the longest catalogue has: so much of an input has the text of the whole, by
// `text_of_start`.
fn input_room() -> [u8; Section::LARGE_CATALOGUE + 1]
    ensures { length result ≡ version2.bytes + 1 }
{
    [0; Section::LARGE_CATALOGUE + 1]
}

// Room for every text.
fn text_room() -> [u8; 32768]
    ensures { length result ≡ text_room }
{
    [0; 32768]
}

// Writes the text for an input: of its layout, or of its refusal.
fn print_input(input: &[u8], out: &mut [u8]) -> usize
    requires { text_room ≤ length out.old }
    ensures { Prints (printed input.now) out.new result }
{
    let version = Version::of_length(input.len());
    if input.len() != version.bytes {
        return printing::print_refusal(Refusal::CatalogueLength.number(), out);
    }
    let Some(table) = decoder::load(input, version) else {
        return printing::print_refusal(Refusal::NotSound.number(), out);
    };
    printing::print_table(table, out)
}

// Reads until the room is full or the input ends, and gives how many bytes it put at the start of the room. What the loop
// counts is no index: so many bytes the reader has given.
fn read_full<R: Read>(reader: &mut R, room: &mut [u8]) -> io::Result<usize>
    ensures within { IfOk result (λ n. n ≤ length room.new) }
    ensures bytes { IfOk result (λ n. Consumes (R.remaining reader.old) (R.remaining reader.new) (take n room.new)) }
    ensures end { IfOk result (λ n. n < length room.new → IsAtEnd (R.remaining reader.new)) }
{
    let mut done = 0;
    while done < room.len() {
        let n = reader.read(&mut room[done..])?;
        if n == 0 {
            break;
        }
        done += n;
    }
    Ok(done)
}

// Writes the text for the whole input, of which it reads no more than tells it.
fn print_read<R: Read, W: Write>(reader: &mut R, writer: &mut W) -> io::Result<()>
    ensures { OnOk result (IfSome (R.remaining reader.old) (λ input.
        Appends (W.contents writer.old) (W.contents writer.new) (printed input))) }
{
    let mut input = input_room();
    let n = read_full(reader, &mut input)?;
    let mut out = text_room();
    let m = print_input(&input[..n], &mut out);
    writer.write_all(&out[..m])
}

fn main(rt: HostRuntime) -> io::Result<()> {
    print_read(&mut rt.reader(), &mut io::writer(&rt))
}
