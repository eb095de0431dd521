// Bytes, numbers and lines, written behind what stands in a buffer already.
#![tactic(auto)]

ghost use Rattle.manager.specs.Printing.{decimal};
ghost use Rattle.texts.specs.Lines.{Room, Appends, line_of};

use itoa::Buffer;

// Writes the bytes of a word.
pub fn write_bytes(out: &mut [u8], at: usize, word: &[u8]) -> usize
    requires { Room at word.now out.old }
    ensures { Appends at word.now out.old out.new result }
{
    let end = at + word.len();
    out[at..end].copy_from_slice(word);
    end
}

// Writes a number in decimal, without leading zeros.
pub fn write_decimal(out: &mut [u8], at: usize, n: u32) -> usize
    requires { Room at (decimal n) out.old }
    ensures { Appends at (decimal n) out.old out.new result }
{
    let mut digits = Buffer::new();
    write_bytes(out, at, digits.format(n).as_bytes())
}

// Writes a line with two numbers: `start`, a number, `middle`, a number, and the line's end.
pub fn write_line(out: &mut [u8], at: usize, start: &[u8], m: u32, middle: &[u8], n: u32) -> usize
    requires { Room at (line_of start.now m middle.now n) out.old }
    ensures { Appends at (line_of start.now m middle.now n) out.old out.new result }
{
    let a = write_bytes(out, at, start);
    let b = write_decimal(out, a, m);
    let c = write_bytes(out, b, middle);
    let d = write_decimal(out, c, n);
    write_bytes(out, d, b"\n")
}
