// The length of the disk.
ghost use Rattle.std.specs.Prelude.{◌≡◌, List, [], ◌∷◌, ℕ, length};
ghost use Rattle.table.specs.Tables.{layout_of};
ghost use Rattle.manager.specs.Conditions.{answered, condition, first_refusal, reply_unless, wrong_disk};
ghost use Rattle.answers.specs.Answers.{reply_of};
ghost use Rattle.looking.specs.Opened.{Opened};

use answers::{Answer, Answered, Refusal};
use section::Section;
use table::Table;

// How many blocks the disk has, if it is as long as the table says.
pub fn check_in(bytes: usize, t: Table) -> Answer
    requires { Opened t }
    ensures { (d : List ℕ) → length d ≡ bytes
        → reply_of result
        ≡ reply_unless (first_refusal (condition 4 (wrong_disk (layout_of t) d) ∷ [])) (answered (layout_of t).blocks) }
{
    if bytes != Section::BLOCK_SIZE * (t.blocks as usize) {
        return Err(Refusal::DiskLength);
    }
    Ok(Answered::Number(t.blocks))
}
