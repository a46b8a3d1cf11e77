//! Tables `Ship`.

ghost use Rattle.std.specs.Prelude.{◌≡◌, ◌∷◌, [], codes, pos, negsuc, true, false, MatchOption, ⊤};
ghost use Rattle.std.specs.Prelude.{None};
ghost use Rattle.std.specs.Int.{w16, w64};
ghost use Rattle.planus.specs.Printed.{of_bits, binary32, u16_shape, u32_shape, i8_shape};
ghost use Rattle.planus.specs.Printed.{i16_shape, i32_shape, i64_shape, bool_shape, f32_shape};
ghost use Rattle.planus.specs.Printed.{f64_shape, IsIn, AllIn, AllUnionsIn, IsPlainVector};
ghost use Rattle.planus.specs.Printed.{IsPlainRequired, IsTextRequired, IsBytesField};
ghost use Rattle.planus.specs.Printed.{IsTextVector, IsTableField, IsTableVector, plain_kind};
ghost use Rattle.planus.specs.Printed.{text_kind, bytes_kind, table_kind, IsPlainField};
ghost use Rattle.planus.specs.Printed.{IsPlainFieldOr, IsUnionField, IsUnionVector, ReadsVariants};
ghost use Rattle.planus.specs.Printed.{plains, judged, texts, tables, optional, required};
ghost use Rattle.planus.specs.Printed.{plain_if, plain_or, number_or, signed_or, union, unions};
ghost use Rattle.planus.specs.Printed.{gives_as};
ghost use Rattle.harbour.specs.Fix.{fix_shape};
ghost use Rattle.harbour.specs.Kind.{kind_shape};
ghost use Rattle.harbour.specs.declared.kind.Kind.TheVariants as kind_value;
ghost use Rattle.harbour.specs.Level.{level_shape};
ghost use Rattle.harbour.specs.declared.level.Level.TheVariants as level_value;
ghost use Rattle.harbour.specs.Needs.{needs_shape};
ghost use Rattle.harbour.specs.Owner.{owner_variants};
ghost use Rattle.harbour.specs.declared.owner.Owner.{Owner};
ghost use Rattle.harbour.specs.declared.owner.OwnerRef.{OwnerRef};
ghost use Rattle.harbour.specs.Pos.{pos_shape};
ghost use Rattle.harbour.specs.declared.ship.Ship.{Ship};
ghost use Rattle.harbour.specs.declared.ship.ShipRef.{ShipRef};

use crate::fix::Fix;
use crate::kind::Kind;
use crate::level::Level;
use crate::needs::Needs;
use crate::owner::{Owner, OwnerRef};
use crate::pos::Pos;
use planus::table_reader::Table;
use planus::{
    Builder, Built, ByteList, Create, List, Offset, OrDefault, Result, SliceWithStartOffset,
    Stride, TableKind, TableView, TableWriter, Text, UnionOffset, UnionVector, Vector, bytes_field,
    create_table, fields, plain_field, plain_field_or, plain_required, plain_vector, table_field,
    table_vector, text_required, text_vector, union_field, union_vector,
};

/// A ship in a harbour.
pub struct Ship;

/// The default of `needs`.
pub const DEFAULT_NEEDS: Needs = Needs { bits: 1 };

/// The default of `heat`.
pub const DEFAULT_HEAT: f32 = 1.5;

/// The fields of `Ship`, as [`Ship::create`] takes them.
#[derive(Drop)]
pub struct ShipFields<'a> {
    /// Its name.
    pub name: &'a str,
    pub hull: u16,
    pub cargo: Option<&'a [u32]>,
    pub kind: Kind,
    pub level: Level,
    pub needs: Needs,
    pub home: Option<Pos>,
    pub track: Option<&'a [Pos]>,
    pub heat: f32,
    pub depth: i16,
    pub open: bool,
    pub shut: bool,
    pub maybe: Option<i32>,
    pub photo: Option<ByteList<'a>>,
    pub names: Option<&'a [&'a str]>,
    pub mate: Option<Offset<Ship>>,
    pub consorts: Option<&'a [Offset<Ship>]>,
    pub kinds: Option<&'a [Kind]>,
    pub owner: Option<UnionOffset<Owner>>,
    pub shares: &'a [UnionOffset<Owner>],
    pub tall: i64,
    pub temps: Option<&'a [f64]>,
    pub deltas: Option<&'a [i8]>,
    pub fix: Fix,
    pub which: Option<Kind>,
    pub flags: Option<&'a [bool]>,
}

impl Ship {
    /// Returns the fields with these, which are required, and the others by default.
    pub fn fields<'a>(name: &'a str, fix: Fix) -> ShipFields<'a>
        ensures given { (result.name ≡ name.entry) × (result.fix ≡ fix) }
        ensures rest { let x = result in (x.hull ≡ 100) × (x.cargo ≡ None) ×
            (x.kind ≡ kind_value.Bike) × (x.level ≡ level_value.Mid) ×
            (x.needs ≡ (record { bits = 1 })) × (x.home ≡ None) × (x.track ≡ None) ×
            (x.heat ≡ (of_bits binary32 1069547520)) × (x.depth ≡ (negsuc 4)) × (x.open ≡ true) ×
            (x.shut ≡ false) × (x.maybe ≡ None) × (x.photo ≡ None) × (x.names ≡ None) ×
            (x.mate ≡ None) × (x.consorts ≡ None) × (x.kinds ≡ None) × (x.owner ≡ None) ×
            (x.shares.now ≡ []) × (x.tall ≡ (pos 0)) × (x.temps ≡ None) × (x.deltas ≡ None) ×
            (x.which ≡ None) × (x.flags ≡ None) }
    {
        ShipFields {
            name,
            hull: 100,
            cargo: None,
            kind: Kind::Bike,
            level: Level::Mid,
            needs: DEFAULT_NEEDS,
            home: None,
            track: None,
            heat: DEFAULT_HEAT,
            depth: -5,
            open: true,
            shut: false,
            maybe: None,
            photo: None,
            names: None,
            mate: None,
            consorts: None,
            kinds: None,
            owner: None,
            shares: &[],
            tall: 0,
            temps: None,
            deltas: None,
            fix,
            which: None,
            flags: None,
        }
    }
}

impl<'a> Create<ShipFields<'a>> for Ship {
    ghost lines = { λ fields.
        signed_or i64_shape w64 23 (pos 0) fields.tall ∷
        required (plain_kind fix_shape) 26 fields.fix ∷
        required text_kind 0 fields.name ∷
        optional (plains u32_shape) 2 fields.cargo ∷
        plain_if pos_shape 6 fields.home ∷
        optional (plains pos_shape) 7 fields.track ∷
        plain_or f32_shape ⟦<f32 as PartialEq>⟧.eq 8 (of_bits binary32 1069547520) fields.heat ∷
        plain_if i32_shape 12 fields.maybe ∷
        optional bytes_kind 13 fields.photo ∷
        optional texts 14 fields.names ∷
        optional (table_kind Ship (λ (view : ShipRef). view.0)) 15 fields.mate ∷
        optional (tables Ship) 16 fields.consorts ∷
        optional (judged kind_shape) 17 fields.kinds ∷
        union owner_variants 18 fields.owner ∷
        unions OwnerRef 20 fields.shares ∷
        optional (plains f64_shape) 24 fields.temps ∷
        optional (plains i8_shape) 25 fields.deltas ∷
        optional (plains bool_shape) 28 fields.flags ∷
        number_or u16_shape 1 100 fields.hull ∷
        plain_or level_shape ⟦<Level as PartialEq>⟧.eq 4 level_value.Mid fields.level ∷
        plain_or needs_shape ⟦<Needs as PartialEq>⟧.eq 5 (record { bits = 1 }) fields.needs ∷
        signed_or i16_shape w16 9 (negsuc 4) fields.depth ∷
        plain_or kind_shape ⟦<Kind as PartialEq>⟧.eq 3 kind_value.Bike fields.kind ∷
        plain_or bool_shape ⟦<bool as PartialEq>⟧.eq 10 true fields.open ∷
        plain_or bool_shape ⟦<bool as PartialEq>⟧.eq 11 false fields.shut ∷
        plain_if kind_shape 27 fields.which ∷ [] };

    ghost may = { λ fields builder. MatchOption fields.mate ⊤ (λ x. IsIn builder x) ×
        MatchOption fields.consorts ⊤ (λ x. AllIn builder x.now) ×
        MatchOption fields.owner ⊤ (λ x. IsIn builder x.offset) ×
        AllUnionsIn builder fields.shares.now };

    fn create(builder: &mut Builder, fields: ShipFields<'a>) -> Built<Ship> {
        let lines = fields![
            23: i64 = OrDefault { value: fields.tall, default: 0 },
            26: Fix = fields.fix,
            0: Offset<Text> = fields.name,
            2: Offset<List<u32>> = fields.cargo,
            6: Pos = fields.home,
            7: Offset<List<Pos>> = fields.track,
            8: f32 = OrDefault { value: fields.heat, default: DEFAULT_HEAT },
            12: i32 = fields.maybe,
            13: Offset<List<u8>> = fields.photo,
            14: Offset<List<Offset<Text>>> = fields.names,
            15: Offset<Ship> = fields.mate,
            16: Offset<List<Offset<Ship>>> = fields.consorts,
            17: Offset<List<Kind>> = fields.kinds,
            (18, 19): union Owner = fields.owner,
            (20, 21): unions Owner = OrDefault { value: fields.shares, default: () },
            24: Offset<List<f64>> = fields.temps,
            25: Offset<List<i8>> = fields.deltas,
            28: Offset<List<bool>> = fields.flags,
            1: u16 = OrDefault { value: fields.hull, default: 100 },
            4: Level = OrDefault { value: fields.level, default: Level::Mid },
            5: Needs = OrDefault { value: fields.needs, default: DEFAULT_NEEDS },
            9: i16 = OrDefault { value: fields.depth, default: -5 },
            3: Kind = OrDefault { value: fields.kind, default: Kind::Bike },
            10: bool = OrDefault { value: fields.open, default: true },
            11: bool = OrDefault { value: fields.shut, default: false },
            27: Kind = fields.which,
        ];
        create_table::<Ship, _>(builder, lines)
    }
}

/// One in a buffer.
#[derive(Clone, Copy)]
pub struct ShipRef<'a>(pub(crate) Table<'a>);

impl<'a> ShipRef<'a> {
    /// Its name.
    pub fn name(&self) -> Result<&'a str>
        ensures { IsTextRequired self.now.0 0 (codes "Ship") (codes "name") result }
    {
        text_required(&self.0, 0, "Ship", "name")
    }

    /// Returns `hull`.
    pub fn hull(&self) -> Result<u16>
        ensures { IsPlainFieldOr u16_shape 100 self.now.0 1 (codes "Ship") (codes "hull") result }
    {
        plain_field_or(&self.0, 1, 100, "Ship", "hull")
    }

    /// Returns `cargo`.
    pub fn cargo(&self) -> Result<Option<Vector<'a, u32>>>
        ensures { IsPlainVector self.now.0 2 (codes "Ship") (codes "cargo") result }
    {
        plain_vector(&self.0, 2, "Ship", "cargo")
    }

    /// Returns `kind`.
    pub fn kind(&self) -> Result<Kind>
        ensures { IsPlainFieldOr kind_shape kind_value.Bike self.now.0 3 (codes "Ship")
            (codes "kind") result }
    {
        plain_field_or(&self.0, 3, Kind::Bike, "Ship", "kind")
    }

    /// Returns `level`.
    pub fn level(&self) -> Result<Level>
        ensures { IsPlainFieldOr level_shape level_value.Mid self.now.0 4 (codes "Ship")
            (codes "level") result }
    {
        plain_field_or(&self.0, 4, Level::Mid, "Ship", "level")
    }

    /// Returns `needs`.
    pub fn needs(&self) -> Result<Needs>
        ensures { IsPlainFieldOr needs_shape (record { bits = 1 }) self.now.0 5 (codes "Ship")
            (codes "needs") result }
    {
        plain_field_or(&self.0, 5, DEFAULT_NEEDS, "Ship", "needs")
    }

    /// Returns `home`.
    pub fn home(&self) -> Result<Option<Pos>>
        ensures { IsPlainField pos_shape self.now.0 6 (codes "Ship") (codes "home") result }
    {
        plain_field(&self.0, 6, "Ship", "home")
    }

    /// Returns `track`.
    pub fn track(&self) -> Result<Option<Vector<'a, Pos>>>
        ensures { IsPlainVector self.now.0 7 (codes "Ship") (codes "track") result }
    {
        plain_vector(&self.0, 7, "Ship", "track")
    }

    /// Returns `heat`.
    pub fn heat(&self) -> Result<f32>
        ensures { IsPlainFieldOr f32_shape (of_bits binary32 1069547520) self.now.0 8
            (codes "Ship") (codes "heat") result }
    {
        plain_field_or(&self.0, 8, DEFAULT_HEAT, "Ship", "heat")
    }

    /// Returns `depth`.
    pub fn depth(&self) -> Result<i16>
        ensures { IsPlainFieldOr i16_shape (negsuc 4) self.now.0 9 (codes "Ship") (codes "depth")
            result }
    {
        plain_field_or(&self.0, 9, -5, "Ship", "depth")
    }

    /// Returns `open`.
    pub fn open(&self) -> Result<bool>
        ensures { IsPlainFieldOr bool_shape true self.now.0 10 (codes "Ship") (codes "open")
            result }
    {
        plain_field_or(&self.0, 10, true, "Ship", "open")
    }

    /// Returns `shut`.
    pub fn shut(&self) -> Result<bool>
        ensures { IsPlainFieldOr bool_shape false self.now.0 11 (codes "Ship") (codes "shut")
            result }
    {
        plain_field_or(&self.0, 11, false, "Ship", "shut")
    }

    /// Returns `maybe`.
    pub fn maybe(&self) -> Result<Option<i32>>
        ensures { IsPlainField i32_shape self.now.0 12 (codes "Ship") (codes "maybe") result }
    {
        plain_field(&self.0, 12, "Ship", "maybe")
    }

    /// Returns `photo`.
    pub fn photo(&self) -> Result<Option<&'a [u8]>>
        ensures { IsBytesField self.now.0 13 (codes "Ship") (codes "photo") result }
    {
        bytes_field(&self.0, 13, "Ship", "photo")
    }

    /// Returns `names`.
    pub fn names(&self) -> Result<Option<Vector<'a, Result<&'a str>>>>
        ensures { IsTextVector self.now.0 14 (codes "Ship") (codes "names") result }
    {
        text_vector(&self.0, 14, "Ship", "names")
    }

    /// Returns `mate`.
    pub fn mate(&self) -> Result<Option<ShipRef<'a>>>
        ensures { IsTableField Ship (λ view. view.0) self.now.0 15 (codes "Ship") (codes "mate")
            result }
    {
        table_field(&self.0, 15, "Ship", "mate")
    }

    /// Returns `consorts`.
    pub fn consorts(&self) -> Result<Option<Vector<'a, Result<ShipRef<'a>>>>>
        ensures { IsTableVector Ship self.now.0 16 (codes "Ship") (codes "consorts") result }
    {
        table_vector(&self.0, 16, "Ship", "consorts")
    }

    /// Returns `kinds`.
    pub fn kinds(&self) -> Result<Option<Vector<'a, Result<Kind>>>>
        ensures { IsPlainVector self.now.0 17 (codes "Ship") (codes "kinds") result }
    {
        plain_vector(&self.0, 17, "Ship", "kinds")
    }

    /// Returns `owner`.
    pub fn owner(&self) -> Result<Option<OwnerRef<'a>>>
        ensures { IsUnionField (ReadsVariants owner_variants) self.now.0 18 (codes "Ship")
            (codes "owner") Owner result }
    {
        union_field::<Owner, OwnerRef<'a>>(&self.0, 18, "Ship", "owner")
    }

    /// Returns `shares`.
    pub fn shares(&self) -> Result<Option<UnionVector<'a, OwnerRef<'a>>>>
        ensures { IsUnionVector self.now.0 20 (codes "Ship") (codes "shares") result }
    {
        union_vector(&self.0, 20, "Ship", "shares")
    }

    /// Returns `tall`.
    pub fn tall(&self) -> Result<i64>
        ensures { IsPlainFieldOr i64_shape (pos 0) self.now.0 23 (codes "Ship") (codes "tall")
            result }
    {
        plain_field_or(&self.0, 23, 0, "Ship", "tall")
    }

    /// Returns `temps`.
    pub fn temps(&self) -> Result<Option<Vector<'a, f64>>>
        ensures { IsPlainVector self.now.0 24 (codes "Ship") (codes "temps") result }
    {
        plain_vector(&self.0, 24, "Ship", "temps")
    }

    /// Returns `deltas`.
    pub fn deltas(&self) -> Result<Option<Vector<'a, i8>>>
        ensures { IsPlainVector self.now.0 25 (codes "Ship") (codes "deltas") result }
    {
        plain_vector(&self.0, 25, "Ship", "deltas")
    }

    /// Returns `fix`.
    pub fn fix(&self) -> Result<Fix>
        ensures { IsPlainRequired fix_shape self.now.0 26 (codes "Ship") (codes "fix") result }
    {
        plain_required(&self.0, 26, "Ship", "fix")
    }

    /// Returns `which`.
    pub fn which(&self) -> Result<Option<Kind>>
        ensures { IsPlainField kind_shape self.now.0 27 (codes "Ship") (codes "which") result }
    {
        plain_field(&self.0, 27, "Ship", "which")
    }

    /// Returns `flags`.
    pub fn flags(&self) -> Result<Option<Vector<'a, bool>>>
        ensures { IsPlainVector self.now.0 28 (codes "Ship") (codes "flags") result }
    {
        plain_vector(&self.0, 28, "Ship", "flags")
    }
}

impl<'a> TableView<'a> for ShipRef<'a> {
    type Kind = Ship;

    ghost table = { λ view. view.0 };

    fn of_table(read: Table<'a>) -> ShipRef<'a> {
        ShipRef(read)
    }
}

impl<'a> Stride for ShipRef<'a> {
    type Stands = u32;
}

impl<'a> planus::ReadError for ShipRef<'a> {
    type Error = planus::Error;
}

impl<'a> planus::VectorReadInner<'a> for ShipRef<'a> {
    ghost gives = { gives_as (λ view. view.0) (codes "[ShipRef]") };

    fn from_buffer(buffer: SliceWithStartOffset<'a>, offset: usize) -> Result<ShipRef<'a>> {
        planus::read_item(buffer, offset)
    }
}

impl TableKind for Ship {
    type Writer = TableWriter<62>;

    ghost name = { codes "[ShipRef]" };

    fn name() -> &'static str {
        "[ShipRef]"
    }
}

impl<'a> std::fmt::Debug for ShipRef<'a> {
    fn fmt<W: std::fmt::Write>(&self, f: &mut std::fmt::Formatter<W>) -> std::fmt::Result {
        let mut shown = f.debug_struct("ShipRef");
        shown.field("name", &self.name());
        shown.field("hull", &self.hull());
        shown.field("cargo", &self.cargo());
        shown.field("kind", &self.kind());
        shown.field("level", &self.level());
        shown.field("needs", &self.needs());
        shown.field("home", &self.home());
        shown.field("track", &self.track());
        shown.field("heat", &self.heat());
        shown.field("depth", &self.depth());
        shown.field("open", &self.open());
        shown.field("shut", &self.shut());
        shown.field("maybe", &self.maybe());
        shown.field("photo", &self.photo());
        shown.field("names", &self.names());
        shown.field("mate", &planus_views::Unread::new(self.0, 15, "ShipRef"));
        shown.field(
            "consorts",
            &planus_views::Unread::new(self.0, 16, "[ShipRef]"),
        );
        shown.field("kinds", &self.kinds());
        shown.field("owner", &self.owner());
        shown.field("shares", &self.shares());
        shown.field("tall", &self.tall());
        shown.field("temps", &self.temps());
        shown.field("deltas", &self.deltas());
        shown.field("fix", &self.fix());
        shown.field("which", &self.which());
        shown.field("flags", &self.flags());
        shown.finish()
    }
}
