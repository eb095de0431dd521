// The text of a catalogue and of a refusal, as document 01 has it in "Printing a catalogue".
//
// Every function writes behind what stands in the buffer already, and answers the place behind what it wrote.
#![tactic(auto)]

ghost use Rattle.std.specs.Prelude.{◌≤◌, length};
ghost use Rattle.section.specs.Limits.{height_count};
ghost use Rattle.layout.specs.Sound.{Sound};
ghost use Rattle.manager.specs.Printing.{layout_text, refusal_text};
ghost use Rattle.table.specs.Tables.{Sized, layout_of};
ghost use Rattle.texts.specs.Lines.{Prints};
ghost use Rattle.printing.specs.Texts.{text_room, refusal_room};

use table::Table;

mod files;
mod pairs;

// Writes the text of the layout that the table stands for.
pub fn print_table(t: Table, out: &mut [u8]) -> usize
    requires places { Sized t }
    requires sound { Sound height_count (layout_of t) }
    requires room { text_room ≤ length out.old }
    ensures { Prints (layout_text (layout_of t)) out.new result }
{
    let a = files::write_first_line(out, 0, t);
    let b = files::write_files(out, a, &t.files[..t.count]);
    let c = texts::write_bytes(out, b, b"free\n");
    pairs::write_pairs(out, c, t.free.as_slice())
}

// Writes the text of a refusal, under any number: a refusal by name would ask more of who calls it.
pub fn print_refusal(number: u32, out: &mut [u8]) -> usize
    requires { refusal_room ≤ length out.old }
    ensures { Prints (refusal_text number) out.new result }
{
    let a = texts::write_bytes(out, 0, b"refused ");
    let b = texts::write_decimal(out, a, number);
    texts::write_bytes(out, b, b"\n")
}
