// The look-up of an id, which serves every call.
ghost use Rattle.std.specs.Prelude.{◌≤◌};
ghost use Rattle.section.specs.Limits.{most_files};
ghost use Rattle.layout.specs.LookingUp.{ByRisingId};
ghost use Rattle.table.specs.Tables.{files_of};
ghost use Rattle.table.specs.LookUps.{LooksUp};

use crate::{LookedUp, Table};

impl Table {
    // The file of an id. Ids are read from the lowest up, to the one sought or the first larger one, and counted as
    // they are read.
    pub fn look_up(self, id: u32) -> LookedUp
        requires count_le_most_files { self.count ≤ most_files }
        requires by_rising_id { ByRisingId (files_of self) }
        ensures { LooksUp self id result }
    {
        let mut read = 0;
        for (j, e) in self.files[..self.count].iter().enumerate() {
            read += 1;
            if id < e.id {
                return LookedUp { file: None, read };
            }
            if id == e.id {
                return LookedUp {
                    file: Some(j),
                    read,
                };
            }
        }
        LookedUp { file: None, read }
    }
}
