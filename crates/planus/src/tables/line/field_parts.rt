//! One field, declared and written if present.
ghost use Rattle.std.specs.Prelude.{◌≡◌, ◌≤◌, ◌+◌, ℕ, List, [], ◌∷◌, ◌++◌};
ghost use Rattle.planus_fields.specs.Fields.{reach_if};
ghost use Rattle.planus_read.specs.Values.{Field};
ghost use Rattle.planus_write.specs.Tables.{declared_of};
ghost use Rattle.planus_write.specs.TableWriting.{WasTold, slot_position};
ghost use Rattle.planus_write.specs.ObjectWriting.{body_of, wrote};
ghost use Rattle.planus.specs.TableFields.{field_in, size_if, item_if, IsUnused};

use crate::tables::write::TableWrite;
use planus_write::{ObjectWriter, Primitive, WriteAsPrimitive};

#[inline(always)]
fn declare<P: Primitive, A: WriteAsPrimitive<P>, W: TableWrite>(
    writer: &mut W,
    slot: usize,
    _field: &A,
)
    requires inside { slot_position slot + 2 ≤ W.room }
    requires small { W.room ≤ 65534 }
    requires unused { IsUnused (W.at writer.old) slot }
    requires fits { (W.at writer.old).object_size + P.SIZE ≤ 65535 }
    ensures told { (fields : List (ℕ × Field)) → WasTold (W.at writer.old) (declared_of fields)
        → WasTold (W.at writer.new) (declared_of (fields ++ (slot, A.field _field.now) ∷ [])) }
    ensures others { (other : ℕ) → (other ≡ slot → ⊥) → IsUnused (W.at writer.old) other
        → IsUnused (W.at writer.new) other }
    ensures size { (W.at writer.new).object_size ≡ (W.at writer.old).object_size + P.SIZE }
{
    writer.enter::<P>(slot);
}

#[inline(always)]
pub(crate) fn declare_if<P: Primitive, A: WriteAsPrimitive<P>, W: TableWrite>(
    writer: &mut W,
    slot: usize,
    field: &Option<A>,
)
    requires inside { slot_position slot + 2 ≤ W.room }
    requires small { W.room ≤ 65534 }
    requires unused { IsUnused (W.at writer.old) slot }
    requires fits { (W.at writer.old).object_size + P.SIZE ≤ 65535 }
    ensures told { (fields : List (ℕ × Field)) → WasTold (W.at writer.old) (declared_of fields)
        → WasTold (W.at writer.new) (declared_of (fields ++ field_in slot A.field field.now)) }
    ensures others { (other : ℕ) → (other ≡ slot → ⊥) → IsUnused (W.at writer.old) other
        → IsUnused (W.at writer.new) other }
    ensures size { (W.at writer.new).object_size ≤ (W.at writer.old).object_size + P.SIZE }
{
    match field {
        None => {}
        Some(field) => declare::<P, A, W>(writer, slot, field),
    }
}

#[inline(always)]
pub(crate) fn write_if<P: Primitive, A: WriteAsPrimitive<P>>(
    writer: &mut ObjectWriter<'_>,
    field: &Option<A>,
)
    requires room { size_if P.SIZE field.now ≤ (body_of writer.old).remaining }
    requires reach { reach_if A.reach field.now ≤ (body_of writer.old).place }
    ensures { body_of writer.new ≡ wrote (size_if P.SIZE field.now) (item_if A.encoding field.now)
        (body_of writer.old) }
{
    match field {
        None => {}
        Some(field) => writer.write::<P, A>(field),
    }
}
