//! Tables `Quay`.

ghost use Rattle.std.specs.Prelude.{◌≡◌, ◌∷◌, [], codes, MatchOption, ⊤, None};
ghost use Rattle.planus.specs.Printed.{IsIn, AllIn, AllUnionsIn, IsPlainVector, IsTextRequired};
ghost use Rattle.planus.specs.Printed.{IsTableVector, text_kind, IsPlainField, IsUnionField};
ghost use Rattle.planus.specs.Printed.{IsUnionVector, ReadsVariants, judged, tables, optional};
ghost use Rattle.planus.specs.Printed.{required, plain_if, union, unions, gives_as};
ghost use Rattle.quay.specs.Berth.{berth_variants};
ghost use Rattle.quay.specs.declared.berth.Berth.{Berth};
ghost use Rattle.quay.specs.declared.berth.BerthRef.{BerthRef};
ghost use Rattle.quay.specs.declared.boat.Boat.{Boat};
ghost use Rattle.quay.specs.Crane.{crane_shape};
ghost use Rattle.quay.specs.Dive.{dive_shape};
ghost use Rattle.quay.specs.declared.fee.Fee.{Fee};
ghost use Rattle.quay.specs.Plate.{plate_shape};
ghost use Rattle.quay.specs.declared.slip.Slip.{Slip};

use crate::berth::{Berth, BerthRef};
use crate::boat::{Boat, BoatRef};
use crate::crane::Crane;
use crate::dive::Dive;
use crate::fee::{Fee, FeeRef};
use crate::plate::Plate;
use crate::slip::{Slip, SlipRef};
use planus::table_reader::Table;
use planus::{
    Builder, Built, Create, List, Offset, OrDefault, Result, SliceWithStartOffset, Stride,
    TableKind, TableView, TableWriter, Text, UnionOffset, UnionVector, Vector, create_table,
    fields, plain_field, plain_vector, table_vector, text_required, union_field, union_vector,
};

/// The kind of `Quay`, and of an offset to one.
pub struct Quay;

/// The fields of `Quay`, as [`Quay::create`] takes them.
#[derive(Drop)]
pub struct QuayFields<'a> {
    pub name: &'a str,
    pub plate: Option<Plate>,
    pub cranes: Option<&'a [Crane]>,
    pub first: Option<UnionOffset<Berth>>,
    pub berths: &'a [UnionOffset<Berth>],
    pub boats: Option<&'a [Offset<Boat>]>,
    pub fees: Option<&'a [Offset<Fee>]>,
    pub dives: Option<&'a [Dive]>,
    pub slips: Option<&'a [Offset<Slip>]>,
}

impl Quay {
    /// Returns the fields with these, which are required, and the others by default.
    pub fn fields<'a>(name: &'a str) -> QuayFields<'a>
        ensures given { (result.name ≡ name.entry) }
        ensures rest { let x = result in (x.plate ≡ None) × (x.cranes ≡ None) × (x.first ≡ None) ×
            (x.berths.now ≡ []) × (x.boats ≡ None) × (x.fees ≡ None) × (x.dives ≡ None) ×
            (x.slips ≡ None) }
    {
        QuayFields {
            name,
            plate: None,
            cranes: None,
            first: None,
            berths: &[],
            boats: None,
            fees: None,
            dives: None,
            slips: None,
        }
    }
}

impl<'a> Create<QuayFields<'a>> for Quay {
    ghost lines = { λ fields.
        required text_kind 0 fields.name ∷
        optional (judged crane_shape) 2 fields.cranes ∷
        union berth_variants 3 fields.first ∷
        unions BerthRef 5 fields.berths ∷
        optional (tables Boat) 7 fields.boats ∷
        optional (tables Fee) 8 fields.fees ∷
        optional (judged dive_shape) 9 fields.dives ∷
        optional (tables Slip) 10 fields.slips ∷
        plain_if plate_shape 1 fields.plate ∷ [] };

    ghost may = { λ fields builder. MatchOption fields.first ⊤ (λ x. IsIn builder x.offset) ×
        AllUnionsIn builder fields.berths.now ×
        MatchOption fields.boats ⊤ (λ x. AllIn builder x.now) ×
        MatchOption fields.fees ⊤ (λ x. AllIn builder x.now) ×
        MatchOption fields.slips ⊤ (λ x. AllIn builder x.now) };

    fn create(builder: &mut Builder, fields: QuayFields<'a>) -> Built<Quay> {
        let lines = fields![
            0: Offset<Text> = fields.name,
            2: Offset<List<Crane>> = fields.cranes,
            (3, 4): union Berth = fields.first,
            (5, 6): unions Berth = OrDefault { value: fields.berths, default: () },
            7: Offset<List<Offset<Boat>>> = fields.boats,
            8: Offset<List<Offset<Fee>>> = fields.fees,
            9: Offset<List<Dive>> = fields.dives,
            10: Offset<List<Offset<Slip>>> = fields.slips,
            1: Plate = fields.plate,
        ];
        create_table::<Quay, _>(builder, lines)
    }
}

/// One in a buffer.
#[derive(Clone, Copy)]
pub struct QuayRef<'a>(pub(crate) Table<'a>);

impl<'a> QuayRef<'a> {
    /// Returns `name`.
    pub fn name(&self) -> Result<&'a str>
        ensures { IsTextRequired self.now.0 0 (codes "Quay") (codes "name") result }
    {
        text_required(&self.0, 0, "Quay", "name")
    }

    /// Returns `plate`.
    pub fn plate(&self) -> Result<Option<Plate>>
        ensures { IsPlainField plate_shape self.now.0 1 (codes "Quay") (codes "plate") result }
    {
        plain_field(&self.0, 1, "Quay", "plate")
    }

    /// Returns `cranes`.
    pub fn cranes(&self) -> Result<Option<Vector<'a, Result<Crane>>>>
        ensures { IsPlainVector self.now.0 2 (codes "Quay") (codes "cranes") result }
    {
        plain_vector(&self.0, 2, "Quay", "cranes")
    }

    /// Returns `first`.
    pub fn first(&self) -> Result<Option<BerthRef<'a>>>
        ensures { IsUnionField (ReadsVariants berth_variants) self.now.0 3 (codes "Quay")
            (codes "first") Berth result }
    {
        union_field::<Berth, BerthRef<'a>>(&self.0, 3, "Quay", "first")
    }

    /// Returns `berths`.
    pub fn berths(&self) -> Result<Option<UnionVector<'a, BerthRef<'a>>>>
        ensures { IsUnionVector self.now.0 5 (codes "Quay") (codes "berths") result }
    {
        union_vector(&self.0, 5, "Quay", "berths")
    }

    /// Returns `boats`.
    pub fn boats(&self) -> Result<Option<Vector<'a, Result<BoatRef<'a>>>>>
        ensures { IsTableVector Boat self.now.0 7 (codes "Quay") (codes "boats") result }
    {
        table_vector(&self.0, 7, "Quay", "boats")
    }

    /// Returns `fees`.
    pub fn fees(&self) -> Result<Option<Vector<'a, Result<FeeRef<'a>>>>>
        ensures { IsTableVector Fee self.now.0 8 (codes "Quay") (codes "fees") result }
    {
        table_vector(&self.0, 8, "Quay", "fees")
    }

    /// Returns `dives`.
    pub fn dives(&self) -> Result<Option<Vector<'a, Result<Dive>>>>
        ensures { IsPlainVector self.now.0 9 (codes "Quay") (codes "dives") result }
    {
        plain_vector(&self.0, 9, "Quay", "dives")
    }

    /// Returns `slips`.
    pub fn slips(&self) -> Result<Option<Vector<'a, Result<SlipRef<'a>>>>>
        ensures { IsTableVector Slip self.now.0 10 (codes "Quay") (codes "slips") result }
    {
        table_vector(&self.0, 10, "Quay", "slips")
    }
}

impl<'a> TableView<'a> for QuayRef<'a> {
    type Kind = Quay;

    ghost table = { λ view. view.0 };

    fn of_table(read: Table<'a>) -> QuayRef<'a> {
        QuayRef(read)
    }
}

impl<'a> Stride for QuayRef<'a> {
    type Stands = u32;
}

impl<'a> planus::ReadError for QuayRef<'a> {
    type Error = planus::Error;
}

impl<'a> planus::VectorReadInner<'a> for QuayRef<'a> {
    ghost gives = { gives_as (λ view. view.0) (codes "[QuayRef]") };

    fn from_buffer(buffer: SliceWithStartOffset<'a>, offset: usize) -> Result<QuayRef<'a>> {
        planus::read_item(buffer, offset)
    }
}

impl TableKind for Quay {
    type Writer = TableWriter<26>;

    ghost name = { codes "[QuayRef]" };

    fn name() -> &'static str {
        "[QuayRef]"
    }
}

impl<'a> std::fmt::Debug for QuayRef<'a> {
    fn fmt<W: std::fmt::Write>(&self, f: &mut std::fmt::Formatter<W>) -> std::fmt::Result {
        let mut shown = f.debug_struct("QuayRef");
        shown.field("name", &self.name());
        shown.field("plate", &self.plate());
        shown.field("cranes", &self.cranes());
        shown.field("first", &self.first());
        shown.field("berths", &self.berths());
        shown.field("boats", &self.boats());
        shown.field("fees", &self.fees());
        shown.field("dives", &self.dives());
        shown.field("slips", &self.slips());
        shown.finish()
    }
}
