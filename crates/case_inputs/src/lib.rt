// The calls, their names, and the refusals that each of them gives, in the order of its checks.
#![tactic(auto)]

ghost use Rattle.std.specs.Prelude.{◌≡◌, map};
ghost use Rattle.answers.specs.Answers.{number_of};
ghost use Rattle.case_inputs.specs.Refusals.{checks_of};

use answers::Refusal;
use answers::Refusal::*;
use std::fmt;

// The calls.
#[derive(Clone, Copy, Debug, PartialEq, Eq)]
pub enum Call {
    Format,
    Add,
    Remove,
    Replace,
    Read,
    Breaks,
    Which,
    Free,
    Check,
}

impl Call {
    // All of them.
    pub const ALL: [Call; 9] = [
        Call::Format,
        Call::Add,
        Call::Remove,
        Call::Replace,
        Call::Read,
        Call::Breaks,
        Call::Which,
        Call::Free,
        Call::Check,
    ];
}

impl fmt::Display for Call {
    fn fmt<W: fmt::Write>(&self, f: &mut fmt::Formatter<W>) -> fmt::Result {
        f.write_str(match self {
            Call::Format => "format",
            Call::Add => "add",
            Call::Remove => "remove",
            Call::Replace => "replace",
            Call::Read => "read",
            Call::Breaks => "breaks",
            Call::Which => "which",
            Call::Free => "free",
            Call::Check => "check",
        })
    }
}

// The refusals of the three calls that have most, in the order of their checks.
const ADD_CHECKS: &'static [Refusal] = &[
    CatalogueLength,
    NotSound,
    DiskLength,
    IdZero,
    IdThere,
    BufferLength,
    FilesFull,
    NoSpace,
];

const REPLACE_CHECKS: &'static [Refusal] = &[
    CatalogueLength,
    NotSound,
    DiskLength,
    IdZero,
    IdMissing,
    BufferLength,
    LetterUnknown,
    LetterNotAbove,
    NoSpace,
];

const READ_CHECKS: &'static [Refusal] = &[
    CatalogueLength,
    NotSound,
    DiskLength,
    IdZero,
    IdMissing,
    BufferLength,
    PastEnd,
];

// The refusals of the call in the order of its checks.
pub fn checks(call: Call) -> &'static [Refusal]
    ensures { map number_of result.now ≡ checks_of call }
{
    match call {
        Call::Format => &[CatalogueLength, NoDisk],
        Call::Add => ADD_CHECKS,
        Call::Remove => &[CatalogueLength, NotSound, DiskLength, IdZero, IdMissing],
        Call::Replace => REPLACE_CHECKS,
        Call::Read => READ_CHECKS,
        Call::Breaks => &[CatalogueLength, NotSound, IdZero, IdMissing],
        Call::Which => &[CatalogueLength, NotSound, BufferLength, ListLength],
        Call::Free => &[CatalogueLength, NotSound],
        Call::Check => &[CatalogueLength, NotSound, DiskLength],
    }
}
