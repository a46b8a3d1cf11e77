//! Boats, whose callsigns are a type of the example's own, of the schema
//!
//! ```text
//! table Boat { hull: uint16 = 100; callsign: string (required); }
//! ```

ghost use Rattle.std.specs.Prelude.{◌≡◌, ◌≤◌, ◌==◌, ◌∷◌, [], Some, length, codes, IfOk, ⊤};
ghost use Rattle.planus.specs.read.Shapes.{u16_shape};
ghost use Rattle.planus.specs.read.Values.{text};
ghost use Rattle.planus.specs.write.State.{Grows};
ghost use Rattle.planus.specs.write.Contents.{value};
ghost use Rattle.planus.specs.write.Parts.{text_entry};
ghost use Rattle.planus.specs.write.Preparing.{WritesText};
ghost use Rattle.planus.specs.write.lemmas.Laws.{entry_is_lawful};
ghost use Rattle.planus.specs.write.lemmas.ContentLaws.{text_prepared};
ghost use Rattle.planus.specs.fields.Contents.{unless};
ghost use Rattle.planus.specs.fields.Fields.{AlwaysWritten};
ghost use Rattle.planus.specs.fields.lemmas.FieldLaws.{left_out_is_lawful};
ghost use Rattle.planus.specs.fields.lemmas.ContentLaws.{always_prepared};
ghost use Rattle.planus.specs.Accessors.{IsTextRequired};
ghost use Rattle.planus.specs.Contents.{WritesContents};
ghost use Rattle.planus.specs.Holds.{holds_text, holds_u16};
ghost use Rattle.planus.specs.ReadPlain.{IsPlainFieldOr};

use planus::{
    BuildError, Builder, Offset, OrDefault, Result, TableKind, TableRef, TableWriter, Text,
    WriteAsOffset, WriteAsOptional, create_table, fields, plain_field_or, text_required,
};

/// A callsign, encoded as a string.
#[derive(Clone, Copy)]
pub struct Callsign<'a>(pub &'a str);

impl<'a> WriteAsOptional<Offset<Text>> for Callsign<'a> {
    type Prepared = Offset<Text>;

    ghost may = { λ callsign old. ⊤ };

    ghost outcome = { λ callsign old answer new.
        AlwaysWritten (WritesText callsign.0.now) old answer new };

    ghost content = { λ callsign. Some (value (text callsign.0.now)) };

    fn prepare(
        &self,
        builder: &mut Builder,
    ) -> std::result::Result<Option<Offset<Text>>, BuildError> {
        let text = self.0;
        Ok(Some(WriteAsOffset::prepare(&text, builder)?))
    }

    ghost is_lawful = { left_out_is_lawful (λ callsign. ⊥)
        (entry_is_lawful (λ callsign. text_entry callsign.0.now)) };

    ghost has_content = { always_prepared (text_prepared (λ callsign. callsign.0.now)) };
}

/// The kind of a boat.
pub struct Boat;

/// A boat in a buffer, without a view of its own.
pub type BoatRef<'a> = TableRef<'a, Boat>;

impl Boat {
    /// Writes a boat. A hull of 100 is left out, any other is written last.
    pub fn create(
        builder: &mut Builder,
        hull: u16,
        callsign: Callsign<'_>,
    ) -> std::result::Result<Offset<Boat>, BuildError>
        ensures kept { IfOk result (λ offset. WritesContents
            ((1, holds_text callsign.entry.0.now) ∷ (0, unless (hull == 100) (holds_u16 hull)) ∷ [])
            builder.old offset.distance builder.new) }
        ensures reached { IfOk result (λ offset. offset.distance ≤ length builder.new.bytes) }
        ensures grows { Grows builder.old builder.new }
    {
        let hull = OrDefault {
            value: hull,
            default: 100,
        };
        let fields = fields![
            0: last u16 = hull,
            1: Offset<Text> = callsign,
        ];
        create_table::<Boat, _>(builder, fields)
    }

    pub fn hull(boat: &BoatRef<'_>) -> Result<u16>
        ensures { IsPlainFieldOr u16_shape 100 boat.now.table 0 (codes "Boat") (codes "hull")
            result }
    {
        plain_field_or(&boat.table, 0, 100, "Boat", "hull")
    }

    pub fn callsign<'a>(boat: &BoatRef<'a>) -> Result<&'a str>
        ensures { IsTextRequired boat.now.table 1 (codes "Boat") (codes "callsign") result }
    {
        text_required(&boat.table, 1, "Boat", "callsign")
    }
}

impl TableKind for Boat {
    type Writer = TableWriter<8>;

    ghost name = { codes "[BoatRef]" };

    fn name() -> &'static str
        ensures { result.now ≡ codes "[BoatRef]" }
    {
        "[BoatRef]"
    }
}
