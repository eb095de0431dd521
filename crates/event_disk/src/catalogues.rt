// Opening a catalogue, which every call but format begins with, and storing what a call made of its table.
ghost use Rattle.std.specs.Prelude.{◌≡◌};
ghost use Rattle.event_disk.specs.Opening.{Opens, Storable, Stores, answered_of};

use crate::Opening;
use answers::{Answered, Refusal};
use calls::Changed;
use catalogue::Version;

// The table of the catalogue, or the refusal of the call.
pub fn open(cat: &[u8]) -> Result<Opening, Refusal>
    ensures { Opens cat.now result }
{
    let version = Version::of_length(cat.len());
    if cat.len() != version.bytes {
        return Err(Refusal::CatalogueLength);
    }
    let Some(table) = decoder::load(cat, version) else {
        return Err(Refusal::NotSound);
    };
    Ok(Opening { version, table })
}

// Stores the table that a call made, and answers its number.
pub fn store_changed(cat: &mut [u8], version: Version, changed: Changed) -> Answered
    requires { Storable version cat.old changed }
    ensures answer { result ≡ answered_of changed }
    ensures catalogue { Stores changed cat.old cat.new }
{
    encoder::store(cat, version, changed.table);
    Answered::Number(changed.number)
}
