//! Writing a value of a fixed layout by itself.

ghost use Rattle.std.specs.Prelude.{IfOk};
ghost use Rattle.planus_read.specs.Values.{apart};
ghost use Rattle.planus_write.specs.InBuilder.{IsIn};
ghost use Rattle.planus_write.specs.Preparing.{WritesApart};
ghost use Rattle.planus_write.specs.State.{Grows};
ghost use Rattle.planus.specs.KeptValues.{KeepsValue, StandsFromEnd, StructStandsIn};

use planus_read::Plain;
use planus_write::{Apart, BuildError, Builder, Offset, WriteAsOffset};

/// Writes a value of a fixed layout as one part, aligned to its own alignment, and returns its
/// offset, to which a union may refer. All that was stored before still is.
///
/// Fails like [`Builder::write_with`]. What was written is unchanged then.
pub fn create_plain<T: Plain>(builder: &mut Builder, value: &T) -> Result<Offset<T>, BuildError>
    ensures written { WritesApart
        (record { bytes = (T.shape).encoded value.now; alignment = T.ALIGNMENT })
        builder.old result builder.new }
    ensures kept { IfOk result (λ offset. KeepsValue
        (apart (record { bytes = (T.shape).encoded value.now; alignment = T.ALIGNMENT }))
        builder.old offset.distance builder.new) }
    ensures stands { IfOk result (λ offset. StandsFromEnd builder.new.bytes
        (apart (record { bytes = (T.shape).encoded value.now; alignment = T.ALIGNMENT }))
        offset.distance) }
    ensures in_builder { IfOk result (λ offset.
        StructStandsIn builder.new ((T.shape).encoded value.now) offset.distance) }
    ensures reached { IfOk result (λ offset. IsIn builder.new offset) }
    ensures grows { Grows builder.old builder.new }
{
    builder.has_a_history();
    Apart(value).prepare(builder)
}
