//! Writing a table from its fields.
ghost use Rattle.std.specs.Prelude.{◌≤◌, [], ◌++◌, max, length, IfOk, IsTrue};
ghost use Rattle.planus_write.specs.State.{Grows};
ghost use Rattle.planus_write.specs.Tables.{body_size, body_bytes};
ghost use Rattle.planus.specs.TableRules.{are_neighbours, can_hold};
ghost use Rattle.planus.specs.Preparing.{AnswersFields, WritesFields, WritesInTurn};
ghost use Rattle.planus_write.specs.Placing.{then_does};
ghost use Rattle.planus_write.specs.Preparing.{Answers};
ghost use Rattle.planus.specs.Contents.{WritesContents, WritesRest};

use crate::tables::kind::TableKind;
use crate::tables::line::Fields;
use crate::tables::write::prepared_fields::PreparedFields;
use crate::tables::write::table_write::TableWrite;
use planus_write::{BuildError, Builder, ObjectFill, ObjectWriter, Offset};

#[derive(Drop)]
struct Body<'a, F: PreparedFields, L: PreparedFields> {
    fields: &'a F,
    last: &'a L,
}

impl<'a, F: PreparedFields, L: PreparedFields> ObjectFill for Body<'a, F, L> {
    ghost size = { λ body. body_size (F.there body.fields.now ++ L.there body.last.now) };

    ghost reach = { λ body. max (F.reach body.fields.now) (L.reach body.last.now) };

    ghost encoding = { λ body place.
        body_bytes place (F.there body.fields.now ++ L.there body.last.now) };

    #[inline(always)]
    fn fill(&self, writer: &mut ObjectWriter<'_>) {
        self.fields.write(writer);
        self.last.write(writer);
    }
}

#[inline(always)]
pub(crate) fn write_table<T, W: TableWrite, F: PreparedFields, L: PreparedFields>(
    builder: &mut Builder,
    fields: &F,
    last: &L,
) -> Result<Offset<T>, BuildError>
    requires rules { IsTrue (can_hold W.room (F.all ++ L.all)) }
    requires fields { F.reach fields.now ≤ length builder.old.bytes }
    requires last { L.reach last.now ≤ length builder.old.bytes }
    ensures written { AnswersFields (F.there fields.now ++ L.there last.now)
        builder.old result builder.new }
    ensures kept { IfOk result (λ offset. WritesRest (F.there fields.now) (L.there last.now)
        [] [] builder.old offset.distance builder.new) }
    ensures reached { IfOk result (λ offset. offset.distance ≤ length builder.new.bytes) }
    ensures grows { Grows builder.old builder.new }
{
    let mut writer = W::start();
    fields.declare::<W>(&mut writer);
    last.declare::<W>(&mut writer);
    writer.close(builder, &Body { fields, last })?;
    Ok(builder.current_offset())
}

/// Writes a table with exactly the fields that are present, and returns its offset. All that was
/// stored before still is.
///
/// The fields come by falling alignment: numbers of eight bytes, then references, unions and
/// numbers of four bytes, then numbers of two, then of one. The tags of unions and fields marked
/// `last` are written after the others. Each slot is used once and is in the vtable of
/// [`TableKind::Writer`], a union's two slots are neighbours, and with all fields the table has at
/// most 65535 bytes without its vtable. All this is computed from the types.
///
/// The error is that of the first field that fails, or else that of the table:
/// [`BuildError::TooLarge`] if a part would begin more than 2147483647 bytes from the end, and
/// [`BuildError::OutOfMemory`] if an allocation fails. What was written before it stays.
#[inline]
pub fn create_table<K: TableKind, F: Fields + Drop>(
    builder: &mut Builder,
    fields: F,
) -> Result<Offset<K>, BuildError>
    requires may { F.may fields builder.old }
    requires rules { IsTrue (can_hold K.Writer.room (F.all ++ F.all_last)) }
    requires unions { IsTrue (are_neighbours F.unions) }
    ensures written { then_does (F.in_turn fields (λ ts ls. Answers (ts ++ ls)) [] []) WritesFields
        builder.old result builder.new }
    ensures in_turn { WritesInTurn (F.in_turn fields (λ ts ls. Answers (ts ++ ls)))
        builder.old result builder.new }
    ensures kept { IfOk result (λ offset. WritesContents
        (F.contents fields ++ F.last_contents fields)
        builder.old offset.distance builder.new) }
    ensures reached { IfOk result (λ offset. offset.distance ≤ length builder.new.bytes) }
    ensures grows { Grows builder.old builder.new }
{
    fields.write::<K, K::Writer, (), (), ()>(&(), builder, &(), &())
}
