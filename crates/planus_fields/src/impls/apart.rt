//! Values of a fixed layout that are written by themselves.
ghost use Rattle.std.specs.Prelude.{⊤};
ghost use Rattle.planus_read.specs.Values.{apart as apart_value};
ghost use Rattle.planus_write.specs.Contents.{value};
ghost use Rattle.planus_write.specs.Parts.{apart_entry};
ghost use Rattle.planus_write.specs.Preparing.{WritesApart};
ghost use Rattle.planus_write.specs.lemmas.Laws.{entry_is_lawful};
ghost use Rattle.planus_write.specs.lemmas.ContentLaws.{plain_prepared};

use crate::traits::WriteAs;
use planus_read::Plain;
use planus_write::{Apart, BuildError, Builder, Offset, WriteAsOffset};

impl<'a, T: Plain> WriteAs<Offset<T>> for Apart<'a, T> {
    type Prepared = Offset<T>;

    ghost may = { λ apart old. ⊤ };

    ghost outcome = { λ apart old answer new. WritesApart
        (record { bytes = (T.shape).encoded apart.0.now; alignment = T.ALIGNMENT })
        old answer new };

    ghost content = { λ apart. value (apart_value
        (record { bytes = (T.shape).encoded apart.0.now; alignment = T.ALIGNMENT })) };

    #[inline]
    fn prepare(&self, builder: &mut Builder) -> Result<Offset<T>, BuildError> {
        WriteAsOffset::prepare(self, builder)
    }

    ghost is_lawful = { entry_is_lawful (λ apart. apart_entry
        (record { bytes = (T.shape).encoded apart.0.now; alignment = T.ALIGNMENT })) };

    ghost has_content = { plain_prepared (T.shape) (λ apart. apart.0.now) };
}
