// The ids of choices in the caller's list.
ghost use Rattle.std.specs.Prelude.{◌≡◌, length};
ghost use Rattle.section.specs.Limits.{most_files};
ghost use Rattle.manager.specs.Outcomes.{then_zeros};
ghost use Rattle.choosing.specs.Listing.{Listable, ids_in};

use crate::Choice;

// Writes the ids in their order, then zeros.
pub fn write_ids(places: &mut [u16], choices: &[Choice])
    requires { (length places.old ≡ most_files) × (Listable choices.now) }
    ensures { places.new ≡ then_zeros (ids_in choices.now) }
{
    places.fill(0);
    for (i, choice) in choices.iter().enumerate() {
        places[i] = choice.id as u16;
    }
}
