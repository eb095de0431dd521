// The number that stands for an answer.
ghost use Rattle.std.specs.Prelude.{◌≡◌};
ghost use Rattle.answers.specs.Answers.{reply_of};
ghost use Rattle.evdisk.specs.Codes.{Signed, code_of};

use answers::{Answer, Answered};

// The answered number, that of "fits already", or minus the number of the refusal.
pub fn code(answer: Answer) -> i64
    ensures value { result ≡ code_of (reply_of answer) }
    ensures signed { Signed result }
{
    match answer {
        Ok(Answered::Number(n)) => i64::from(n),
        Ok(Answered::FitsAlready) => 256,
        Err(refusal) => -i64::from(refusal.number()),
    }
}
