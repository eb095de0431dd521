// The answers of the calls: what is answered, or the refusal by name.
#![tactic(auto)]

ghost use Rattle.std.specs.Prelude.{◌≡◌};
ghost use Rattle.answers.specs.Answers.{number_of};

// What a call answers: a number, or that blocks fit already.
#[derive(Clone, Copy, Debug, PartialEq, Eq)]
pub enum Answered {
    Number(u32),
    FitsAlready,
}

// A refusal, under its number.
#[derive(Clone, Copy, Debug, PartialEq, Eq)]
pub enum Refusal {
    CatalogueLength = 1,
    NoDisk = 2,
    NotSound = 3,
    DiskLength = 4,
    IdZero = 5,
    IdMissing = 6,
    IdThere = 7,
    BufferLength = 8,
    PastEnd = 9,
    FilesFull = 10,
    NoSpace = 11,
    LetterUnknown = 12,
    LetterNotAbove = 13,
    ListLength = 14,
}

// What a call gives back.
pub type Answer = Result<Answered, Refusal>;

impl Refusal {
    // The number by which the documents name it.
    pub fn number(self) -> u32
        ensures { result ≡ number_of self }
    {
        self as u32
    }
}
