//! Tables `Port`.

ghost use Rattle.std.specs.Prelude.{◌≡◌, ◌∷◌, [], codes, None};
ghost use Rattle.planus.specs.Printed.{u16_shape, IsIn, AllIn, AllUnionsIn, IsPlainVectorRequired};
ghost use Rattle.planus.specs.Printed.{IsBytesRequired, IsTextVectorRequired};
ghost use Rattle.planus.specs.Printed.{IsTableVectorRequired, bytes_kind, IsPlainField};
ghost use Rattle.planus.specs.Printed.{IsPlainFieldOr, IsUnionRequired, IsUnionVectorRequired};
ghost use Rattle.planus.specs.Printed.{ReadsVariants, plains, texts, tables, required, plain_if};
ghost use Rattle.planus.specs.Printed.{plain_or, union_required, unions_required, gives_as};
ghost use Rattle.harbour.specs.Gauge.{gauge_shape};
ghost use Rattle.harbour.specs.Owner.{owner_variants};
ghost use Rattle.harbour.specs.declared.owner.OwnerRef.{OwnerRef};
ghost use Rattle.harbour.specs.declared.ship.Ship.{Ship};
ghost use Rattle.harbour.specs.Signal.{signal_shape};
ghost use Rattle.harbour.specs.declared.signal.Signal.TheVariants as signal_value;

use crate::gauge::Gauge;
use crate::owner::{Owner, OwnerRef};
use crate::ship::{Ship, ShipRef};
use crate::signal::Signal;
use planus::table_reader::Table;
use planus::{
    Builder, Built, ByteList, Create, List, Offset, OrDefault, Result, SliceWithStartOffset,
    Stride, TableKind, TableView, TableWriter, Text, UnionOffset, UnionVector, Vector,
    bytes_required, create_table, fields, plain_field, plain_field_or, plain_vector_required,
    table_vector_required, text_vector_required, union_required, union_vector_required,
};

/// Where ships lie.
pub struct Port;

/// The fields of `Port`, as [`Port::create`] takes them.
#[derive(Drop)]
pub struct PortFields<'a> {
    pub owner: UnionOffset<Owner>,
    pub ships: &'a [Offset<Ship>],
    pub berths: &'a [&'a str],
    pub shares: &'a [UnionOffset<Owner>],
    pub soundings: &'a [u16],
    pub chart: ByteList<'a>,
    pub gauge: Option<Gauge>,
    /// What it hoists.
    pub hoisted: Signal,
}

impl Port {
    /// Returns the fields with these, which are required, and the others by default.
    pub fn fields<'a>(
        owner: UnionOffset<Owner>,
        ships: &'a [Offset<Ship>],
        berths: &'a [&'a str],
        shares: &'a [UnionOffset<Owner>],
        soundings: &'a [u16],
        chart: ByteList<'a>,
    ) -> PortFields<'a>
        ensures given { (result.owner ≡ owner) × (result.ships ≡ ships.entry) ×
            (result.berths ≡ berths.entry) × (result.shares ≡ shares.entry) ×
            (result.soundings ≡ soundings.entry) × (result.chart ≡ chart.entry) }
        ensures rest { let x = result in (x.gauge ≡ None) × (x.hoisted ≡ signal_value.Quebec) }
    {
        PortFields {
            owner,
            ships,
            berths,
            shares,
            soundings,
            chart,
            gauge: None,
            hoisted: Signal::Quebec,
        }
    }
}

impl<'a> Create<PortFields<'a>> for Port {
    ghost lines = { λ fields.
        plain_if gauge_shape 8 fields.gauge ∷
        union_required owner_variants 0 fields.owner ∷
        required (tables Ship) 2 fields.ships ∷
        required texts 3 fields.berths ∷
        unions_required OwnerRef 4 fields.shares ∷
        required (plains u16_shape) 6 fields.soundings ∷
        required bytes_kind 7 fields.chart ∷
        plain_or signal_shape ⟦<Signal as PartialEq>⟧.eq 9 signal_value.Quebec fields.hoisted ∷
        [] };

    ghost may = { λ fields builder. IsIn builder fields.owner.offset ×
        AllIn builder fields.ships.now × AllUnionsIn builder fields.shares.now };

    fn create(builder: &mut Builder, fields: PortFields<'a>) -> Built<Port> {
        let lines = fields![
            8: Gauge = fields.gauge,
            (0, 1): union Owner = fields.owner,
            2: Offset<List<Offset<Ship>>> = fields.ships,
            3: Offset<List<Offset<Text>>> = fields.berths,
            (4, 5): unions Owner = fields.shares,
            6: Offset<List<u16>> = fields.soundings,
            7: Offset<List<u8>> = fields.chart,
            9: Signal = OrDefault { value: fields.hoisted, default: Signal::Quebec },
        ];
        create_table::<Port, _>(builder, lines)
    }
}

/// One in a buffer.
#[derive(Clone, Copy)]
pub struct PortRef<'a>(pub(crate) Table<'a>);

impl<'a> PortRef<'a> {
    /// Returns `owner`.
    pub fn owner(&self) -> Result<OwnerRef<'a>>
        ensures { IsUnionRequired (ReadsVariants owner_variants) self.now.0 0 (codes "Port")
            (codes "owner") result }
    {
        union_required::<OwnerRef<'a>>(&self.0, 0, "Port", "owner")
    }

    /// Returns `ships`.
    pub fn ships(&self) -> Result<Vector<'a, Result<ShipRef<'a>>>>
        ensures { IsTableVectorRequired Ship self.now.0 2 (codes "Port") (codes "ships") result }
    {
        table_vector_required(&self.0, 2, "Port", "ships")
    }

    /// Returns `berths`.
    pub fn berths(&self) -> Result<Vector<'a, Result<&'a str>>>
        ensures { IsTextVectorRequired self.now.0 3 (codes "Port") (codes "berths") result }
    {
        text_vector_required(&self.0, 3, "Port", "berths")
    }

    /// Returns `shares`.
    pub fn shares(&self) -> Result<UnionVector<'a, OwnerRef<'a>>>
        ensures { IsUnionVectorRequired self.now.0 4 (codes "Port") (codes "shares") result }
    {
        union_vector_required(&self.0, 4, "Port", "shares")
    }

    /// Returns `soundings`.
    pub fn soundings(&self) -> Result<Vector<'a, u16>>
        ensures { IsPlainVectorRequired self.now.0 6 (codes "Port") (codes "soundings") result }
    {
        plain_vector_required(&self.0, 6, "Port", "soundings")
    }

    /// Returns `chart`.
    pub fn chart(&self) -> Result<&'a [u8]>
        ensures { IsBytesRequired self.now.0 7 (codes "Port") (codes "chart") result }
    {
        bytes_required(&self.0, 7, "Port", "chart")
    }

    /// Returns `gauge`.
    pub fn gauge(&self) -> Result<Option<Gauge>>
        ensures { IsPlainField gauge_shape self.now.0 8 (codes "Port") (codes "gauge") result }
    {
        plain_field(&self.0, 8, "Port", "gauge")
    }

    /// What it hoists.
    pub fn hoisted(&self) -> Result<Signal>
        ensures { IsPlainFieldOr signal_shape signal_value.Quebec self.now.0 9 (codes "Port")
            (codes "hoisted") result }
    {
        plain_field_or(&self.0, 9, Signal::Quebec, "Port", "hoisted")
    }
}

impl<'a> TableView<'a> for PortRef<'a> {
    type Kind = Port;

    ghost table = { λ view. view.0 };

    fn of_table(read: Table<'a>) -> PortRef<'a> {
        PortRef(read)
    }
}

impl<'a> Stride for PortRef<'a> {
    type Stands = u32;
}

impl<'a> planus::ReadError for PortRef<'a> {
    type Error = planus::Error;
}

impl<'a> planus::VectorReadInner<'a> for PortRef<'a> {
    ghost gives = { gives_as (λ view. view.0) (codes "[PortRef]") };

    fn from_buffer(buffer: SliceWithStartOffset<'a>, offset: usize) -> Result<PortRef<'a>> {
        planus::read_item(buffer, offset)
    }
}

impl TableKind for Port {
    type Writer = TableWriter<24>;

    ghost name = { codes "[PortRef]" };

    fn name() -> &'static str {
        "[PortRef]"
    }
}

impl<'a> std::fmt::Debug for PortRef<'a> {
    fn fmt<W: std::fmt::Write>(&self, f: &mut std::fmt::Formatter<W>) -> std::fmt::Result {
        let mut shown = f.debug_struct("PortRef");
        shown.field("owner", &self.owner());
        shown.field("ships", &self.ships());
        shown.field("berths", &self.berths());
        shown.field("shares", &self.shares());
        shown.field("soundings", &self.soundings());
        shown.field("chart", &self.chart());
        shown.field("gauge", &self.gauge());
        shown.field("hoisted", &self.hoisted());
        shown.finish()
    }
}
