//! Roots.

ghost use Rattle.std.specs.Prelude.{◌≡◌, ◌≤◌, length, IfOk};
ghost use Rattle.planus_write.specs.Parts.{identifier_bytes};
ghost use Rattle.planus_write.specs.Finishing.{WritesRoot, WritesSizedRoot};
ghost use Rattle.planus_read.specs.SizePrefixed.{IsPrefixed};

use crate::builder::Builder;
use crate::errors::BuildError;

impl Builder {
    #[inline]
    pub(crate) fn write_root(
        &mut self,
        root: u32,
        identifier: Option<[u8; 4]>,
    ) -> Result<u32, BuildError>
        requires { root ≤ length self.old.bytes }
        ensures { WritesRoot root identifier self.old result self.new }
    {
        let mask = self.backing.finish_mask();
        let name = identifier_slice(&identifier);
        let place = self.backing.make_room(name.len() + 4, mask)?;
        self.backing.put_if_any(name);
        self.backing.put(&(place - root).to_le_bytes());
        Ok(place)
    }

    #[inline]
    pub(crate) fn write_sized_root(
        &mut self,
        root: u32,
        identifier: Option<[u8; 4]>,
    ) -> Result<u32, BuildError>
        requires { root ≤ length self.old.bytes }
        ensures written { WritesSizedRoot root identifier self.old result self.new }
        ensures size { IfOk result (λ place. IsPrefixed self.new.bytes) }
    {
        let mask = self.backing.finish_mask();
        let name = identifier_slice(&identifier);
        let place = self.backing.make_room(name.len() + 8, mask)?;
        let size = place - 4;
        self.backing
            .put_three(&size.to_le_bytes(), &(size - root).to_le_bytes(), name);
        Ok(place)
    }
}

fn identifier_slice(identifier: &Option<[u8; 4]>) -> &[u8]
    ensures bytes { result.now ≡ identifier_bytes identifier.now }
    ensures short { length result.now ≤ 4 }
{
    match identifier {
        None => &[],
        Some(bytes) => bytes,
    }
}
