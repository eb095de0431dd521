// The breaks of a file.
ghost use Rattle.std.specs.Prelude.{◌≡◌};
ghost use Rattle.layout.specs.Layout.{find_file};
ghost use Rattle.table.specs.Tables.{layout_of};
ghost use Rattle.manager.specs.Conditions.{file_checks, first_refusal, reply_unless};
ghost use Rattle.manager.specs.Outcomes.{breaks_found};
ghost use Rattle.answers.specs.Answers.{reply_of};
ghost use Rattle.looking.specs.Opened.{Opened};

use crate::finding::find;
use answers::{Answer, Answered};
use table::Table;

// How many breaks a file has.
pub fn breaks_in(t: Table, id: u16) -> Answer
    requires { Opened t }
    ensures { reply_of result
        ≡ reply_unless (first_refusal (file_checks id (layout_of t))) (breaks_found (find_file id (layout_of t).files)) }
{
    let i = find(t, id)?;
    let n = t.files[i].pieces.breaks();
    Ok(Answered::Number(n))
}
