// What the cases write.
use crate::stores::Size;
use answers::{Answer, Answered};
use std::io;

// Writes words.
pub(crate) fn print(rt: &impl Print, words: &str) -> io::Result<()> {
    print!(rt; "{words}")
}

// Writes a word and a number.
pub(crate) fn print_number(rt: &impl Print, word: &str, n: u32) -> io::Result<()> {
    print!(rt; "{word}{n}")
}

// Writes the words if the catalogue is the large one.
pub(crate) fn print_mark(rt: &impl Print, size: Size, words: &str) -> io::Result<()> {
    if let Size::Large = size {
        print(rt, words)?;
    }
    Ok(())
}

// Writes what a call gave back.
pub(crate) fn print_answer(rt: &impl Print, answer: Answer) -> io::Result<()> {
    match answer {
        Ok(Answered::Number(n)) => print_number(rt, "answered ", n),
        Ok(Answered::FitsAlready) => print(rt, "fits already"),
        Err(refusal) => print_number(rt, "refused ", refusal.number()),
    }
}

// Writes it in a line that begins with the case's words.
pub(crate) fn print_case(rt: &impl Print, words: &str, a: Answer) -> io::Result<()> {
    print(rt, words)?;
    print_answer(rt, a)?;
    print(rt, "\n")
}

// Writes such a line of a limit.
pub(crate) fn print_limit(rt: &impl Print, size: Size, words: &str, a: Answer) -> io::Result<()> {
    print_mark(rt, size, "large catalogue, ")?;
    print_case(rt, words, a)
}

// Writes whether two buffers are the same, in a line of a limit.
pub(crate) fn print_same(
    rt: &impl Print,
    size: Size,
    words: &str,
    a: &[u8],
    b: &[u8],
) -> io::Result<()> {
    print_mark(rt, size, "large catalogue, ")?;
    print(rt, words)?;
    if a == b {
        print(rt, "the same\n")
    } else {
        print(rt, "not the same\n")
    }
}
