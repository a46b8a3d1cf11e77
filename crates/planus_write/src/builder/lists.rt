//! The count of a vector.

ghost use Rattle.std.specs.Prelude.{[]};
ghost use Rattle.planus_write.specs.History.{unshared_entry};
ghost use Rattle.planus_write.specs.Parts.{count_part};
ghost use Rattle.planus_write.specs.Placing.{WritesEntry};

use crate::builder::Builder;
use crate::errors::BuildError;

impl Builder {
    #[inline]
    pub(crate) fn write_count(&mut self, count: u32) -> Result<u32, BuildError>
        ensures { WritesEntry (unshared_entry (count_part count)) [] self.old result self.new }
    {
        let place = self.backing.make_room(4, 0)?;
        self.backing.put(&count.to_le_bytes());
        Ok(place)
    }
}
