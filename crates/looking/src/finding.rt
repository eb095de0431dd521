// The file of an id, as the calls find it.
ghost use Rattle.looking.specs.FileIds.{Finds};
ghost use Rattle.looking.specs.Opened.{Opened};

use answers::Refusal;
use table::Table;

// Where the file of an id stands; the id 0 is refused, and one that no file has.
pub fn find(t: Table, id: u16) -> Result<usize, Refusal>
    requires { Opened t }
    ensures { Finds t id result }
{
    if id == 0 {
        return Err(Refusal::IdZero);
    }
    let Some(i) = t.look_up(id as u32).file else {
        return Err(Refusal::IdMissing);
    };
    Ok(i)
}
