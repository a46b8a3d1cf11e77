//! Values of a fixed layout that are written by themselves.
ghost use Rattle.std.specs.Prelude.{⊤};
ghost use Rattle.planus_write.specs.Parts.{apart_entry};
ghost use Rattle.planus_write.specs.Preparing.{WritesApart};
ghost use Rattle.planus_write.specs.lemmas.Laws.{entry_is_lawful};

use crate::apart::Apart;
use crate::builder::Builder;
use crate::errors::BuildError;
use crate::offset::Offset;
use crate::traits::WriteAsOffset;
use planus_read::Plain;

impl<'a, T: Plain> WriteAsOffset<T> for Apart<'a, T> {
    ghost may = { λ apart old. ⊤ };

    ghost outcome = { λ apart old answer new. WritesApart
        (record { bytes = (T.shape).encoded apart.0.now; alignment = T.ALIGNMENT })
        old answer new };

    #[inline]
    fn prepare(&self, builder: &mut Builder) -> Result<Offset<T>, BuildError> {
        match builder.write_over(T::SIZE, T::ALIGNMENT - 1, self) {
            Ok(()) => Ok(builder.current_offset()),
            Err(error) => Err(error),
        }
    }

    ghost is_lawful = { entry_is_lawful (λ apart. apart_entry
        (record { bytes = (T.shape).encoded apart.0.now; alignment = T.ALIGNMENT })) };
}
