//! The fields of a table, prepared.
ghost use Rattle.std.specs.Prelude.{◌≡◌, ◌≤◌, ◌+◌, ℕ, List, [], ◌++◌, IsTrue};
ghost use Rattle.std.specs.List.{AllByRecursion};
ghost use Rattle.planus_read.specs.Values.{Field};
ghost use Rattle.planus_write.specs.ObjectWriting.{body_of, wrote};
ghost use Rattle.planus_write.specs.Tables.{Declared, IsFieldAfter, declared_of, body_size};
ghost use Rattle.planus_write.specs.Tables.{body_bytes, total_size};
ghost use Rattle.planus_write.specs.TableWriting.{WasTold};
ghost use Rattle.planus.specs.TableFields.{IsUnused};
ghost use Rattle.planus.specs.TableRules.{Among, has_slots, is_apart};

use crate::tables::write::table_write::TableWrite;
use planus_write::ObjectWriter;

/// Prepared fields, in a chain or a group.
///
/// The ghost member `all` has the entries of all fields, `there` the present fields, and `reach` is
/// the greatest distance in bytes from the end that they refer to.
pub trait PreparedFields {
    ghost all: { List Declared };

    ghost there: { Self → List (ℕ × Field) };

    ghost reach: { Self → ℕ };

    /// Declares the fields that are present. Requires that all slots are in the vtable, apart and
    /// unused, and that the object has at most 65535 bytes.
    fn declare<W: TableWrite>(&self, writer: &mut W)
        requires small { W.room ≤ 65534 }
        requires slots { IsTrue (has_slots W.room all) }
        requires unused { AllByRecursion (λ one. IsUnused (W.at writer.old) one.slot) all }
        requires fits { (W.at writer.old).object_size + total_size all ≤ 65535 }
        ensures told { (fields : List (ℕ × Field)) → WasTold (W.at writer.old) (declared_of fields)
            → WasTold (W.at writer.new) (declared_of (fields ++ there self.now)) }
        ensures others { (other : ℕ) → IsTrue (is_apart other all)
            → IsUnused (W.at writer.old) other → IsUnused (W.at writer.new) other }
        ensures size { (W.at writer.new).object_size
            ≤ (W.at writer.old).object_size + total_size all };

    /// Writes the fields that are present. Requires room for their bytes, and that what they refer
    /// to is after these.
    fn write(&self, writer: &mut ObjectWriter<'_>)
        requires room { body_size (there self.now) ≤ (body_of writer.old).remaining }
        requires reach { reach self.now + body_size (there self.now) ≤ (body_of writer.old).place }
        ensures { body_of writer.new ≡ wrote (body_size (there self.now))
            (λ place. body_bytes place (there self.now)) (body_of writer.old) };

    ghost stand: { (fields : Self) (before : ℕ) → reach fields ≤ before
        → AllByRecursion (λ entry. IsFieldAfter before entry.1) (there fields) };

    ghost among: { (fields : Self) → Among (declared_of (there fields)) all };
}

impl PreparedFields for () {
    ghost all = { [] };

    ghost there = { λ fields. [] };

    ghost reach = { λ fields. 0 };

    #[inline(always)]
    fn declare<W: TableWrite>(&self, _writer: &mut W) {}

    #[inline(always)]
    fn write(&self, _writer: &mut ObjectWriter<'_>) {}

    ghost stand = { λ fields before reached. tt };

    ghost among = { λ fields. tt };
}
