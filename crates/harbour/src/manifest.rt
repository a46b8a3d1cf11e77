//! Tables `Manifest`.

ghost use Rattle.std.specs.Prelude.{◌≡◌, ◌∷◌, [], codes, negsuc, true, false, MatchOption, ⊤};
ghost use Rattle.std.specs.Prelude.{None};
ghost use Rattle.std.specs.Int.{w8, w16, w32, w64};
ghost use Rattle.planus.specs.Printed.{of_bits, binary32, binary64, u8_shape, u16_shape};
ghost use Rattle.planus.specs.Printed.{u32_shape, u64_shape, i8_shape, i16_shape, i32_shape};
ghost use Rattle.planus.specs.Printed.{i64_shape, bool_shape, f32_shape, f64_shape, IsIn, AllIn};
ghost use Rattle.planus.specs.Printed.{AllUnionsIn, IsPlainVector, IsPlainVectorRequired};
ghost use Rattle.planus.specs.Printed.{IsPlainRequired, IsTextField, IsTextRequired, IsBytesField};
ghost use Rattle.planus.specs.Printed.{IsBytesRequired, IsTextVector, IsTextVectorRequired};
ghost use Rattle.planus.specs.Printed.{IsTableField, IsTableRequired, IsTableVector};
ghost use Rattle.planus.specs.Printed.{IsTableVectorRequired, plain_kind, text_kind, bytes_kind};
ghost use Rattle.planus.specs.Printed.{table_kind, IsPlainField, IsPlainFieldOr, IsUnionField};
ghost use Rattle.planus.specs.Printed.{IsUnionRequired, IsUnionVector, ReadsVariants, plains};
ghost use Rattle.planus.specs.Printed.{judged, texts, tables, optional, required, plain_if};
ghost use Rattle.planus.specs.Printed.{plain_or, number_or, signed_or, union, union_required};
ghost use Rattle.planus.specs.Printed.{unions, gives_as};
ghost use Rattle.harbour.specs.Gauge.{gauge_shape};
ghost use Rattle.harbour.specs.Kind.{kind_shape};
ghost use Rattle.harbour.specs.declared.kind.Kind.TheVariants as kind_value;
ghost use Rattle.harbour.specs.Level.{level_shape};
ghost use Rattle.harbour.specs.declared.level.Level.TheVariants as level_value;
ghost use Rattle.harbour.specs.declared.manifest.Manifest.{Manifest};
ghost use Rattle.harbour.specs.declared.manifest.ManifestRef.{ManifestRef};
ghost use Rattle.harbour.specs.Needs.{needs_shape};
ghost use Rattle.harbour.specs.Owner.{owner_variants};
ghost use Rattle.harbour.specs.declared.owner.Owner.{Owner};
ghost use Rattle.harbour.specs.declared.owner.OwnerRef.{OwnerRef};
ghost use Rattle.harbour.specs.declared.person.Person.{Person};
ghost use Rattle.harbour.specs.Pos.{pos_shape};
ghost use Rattle.harbour.specs.declared.ship.Ship.{Ship};
ghost use Rattle.harbour.specs.declared.ship.ShipRef.{ShipRef};
ghost use Rattle.harbour.specs.Signal.{signal_shape};
ghost use Rattle.harbour.specs.declared.signal.Signal.TheVariants as signal_value;

use crate::gauge::Gauge;
use crate::kind::Kind;
use crate::level::Level;
use crate::needs::Needs;
use crate::owner::{Owner, OwnerRef};
use crate::person::{Person, PersonRef};
use crate::pos::Pos;
use crate::ship::{Ship, ShipRef};
use crate::signal::Signal;
use planus::table_reader::Table;
use planus::{
    Builder, Built, ByteList, Create, FieldAt, FieldGroup, Lines8, List, Offset, OrDefault, Result,
    SliceWithStartOffset, Stride, TableKind, TableView, TableWriter, Text, UnionOffset,
    UnionVector, Vector, bytes_field, bytes_required, create_table, fields, plain_field,
    plain_field_or, plain_required, plain_vector, plain_vector_required, table_field,
    table_required, table_vector, table_vector_required, text_field, text_required, text_vector,
    text_vector_required, union_field, union_required, union_vector,
};

/// What a ship carries, in a field of each kind.
pub struct Manifest;

/// The default of `weight`.
pub const DEFAULT_WEIGHT: f64 = 0.5;

/// The default of `worth`.
pub const DEFAULT_WORTH: f32 = 0.0;

/// The default of `needs`.
pub const DEFAULT_NEEDS: Needs = Needs { bits: 2 };

/// The fields of `Manifest`, as [`Manifest::create`] takes them.
#[derive(Drop)]
pub struct ManifestFields<'a> {
    pub number: u64,
    pub issued: i64,
    pub weight: f64,
    pub worth: f32,
    pub boxes: u32,
    pub debt: i32,
    pub pages: u16,
    pub shift: i16,
    pub tier: u8,
    pub lean: i8,
    pub sealed: bool,
    pub opened: bool,
    pub kind: Kind,
    pub level: Level,
    pub needs: Needs,
    pub signal: Signal,
    pub rank: Option<u64>,
    pub margin: Option<f64>,
    pub dues: Option<i32>,
    pub paid: Option<bool>,
    pub grade: Option<Kind>,
    pub berth: Option<Pos>,
    pub gauge: Gauge,
    pub title: &'a str,
    pub note: Option<&'a str>,
    pub scan: Option<ByteList<'a>>,
    pub stamp: ByteList<'a>,
    pub weights: Option<&'a [f64]>,
    pub counts: &'a [u32],
    pub offsets: Option<&'a [i16]>,
    pub marks: Option<&'a [bool]>,
    pub kinds: Option<&'a [Kind]>,
    pub track: Option<&'a [Pos]>,
    pub labels: Option<&'a [&'a str]>,
    pub holders: &'a [&'a str],
    pub ship: Offset<Ship>,
    pub next: Option<Offset<Manifest>>,
    pub persons: Option<&'a [Offset<Person>]>,
    pub parts: &'a [Offset<Manifest>],
    pub owner: Option<UnionOffset<Owner>>,
    pub payer: UnionOffset<Owner>,
    pub owners: &'a [UnionOffset<Owner>],
}

impl Manifest {
    /// Returns the fields with these, which are required, and the others by default.
    pub fn fields<'a>(
        gauge: Gauge,
        title: &'a str,
        stamp: ByteList<'a>,
        counts: &'a [u32],
        holders: &'a [&'a str],
        ship: Offset<Ship>,
        parts: &'a [Offset<Manifest>],
        payer: UnionOffset<Owner>,
    ) -> ManifestFields<'a>
        ensures given { (result.gauge ≡ gauge) × (result.title ≡ title.entry) ×
            (result.stamp ≡ stamp.entry) × (result.counts ≡ counts.entry) ×
            (result.holders ≡ holders.entry) × (result.ship ≡ ship) × (result.parts ≡ parts.entry)
            × (result.payer ≡ payer) }
        ensures rest { let x = result in (x.number ≡ 1) × (x.issued ≡ (negsuc 0)) ×
            (x.weight ≡ (of_bits binary64 4602678819172646912)) × (x.worth ≡ (of_bits binary32 0))
            × (x.boxes ≡ 12) × (x.debt ≡ (negsuc 6)) × (x.pages ≡ 3) × (x.shift ≡ (negsuc 1)) ×
            (x.tier ≡ 1) × (x.lean ≡ (negsuc 0)) × (x.sealed ≡ true) × (x.opened ≡ false) ×
            (x.kind ≡ kind_value.Car) × (x.level ≡ level_value.High) ×
            (x.needs ≡ (record { bits = 2 })) × (x.signal ≡ signal_value.Alfa) × (x.rank ≡ None) ×
            (x.margin ≡ None) × (x.dues ≡ None) × (x.paid ≡ None) × (x.grade ≡ None) ×
            (x.berth ≡ None) × (x.note ≡ None) × (x.scan ≡ None) × (x.weights ≡ None) ×
            (x.offsets ≡ None) × (x.marks ≡ None) × (x.kinds ≡ None) × (x.track ≡ None) ×
            (x.labels ≡ None) × (x.next ≡ None) × (x.persons ≡ None) × (x.owner ≡ None) ×
            (x.owners.now ≡ []) }
    {
        ManifestFields {
            number: 1,
            issued: -1,
            weight: DEFAULT_WEIGHT,
            worth: DEFAULT_WORTH,
            boxes: 12,
            debt: -7,
            pages: 3,
            shift: -2,
            tier: 1,
            lean: -1,
            sealed: true,
            opened: false,
            kind: Kind::Car,
            level: Level::High,
            needs: DEFAULT_NEEDS,
            signal: Signal::Alfa,
            rank: None,
            margin: None,
            dues: None,
            paid: None,
            grade: None,
            berth: None,
            gauge,
            title,
            note: None,
            scan: None,
            stamp,
            weights: None,
            counts,
            offsets: None,
            marks: None,
            kinds: None,
            track: None,
            labels: None,
            holders,
            ship,
            next: None,
            persons: None,
            parts,
            owner: None,
            payer,
            owners: &[],
        }
    }
}

type Manifest1FieldLines = Lines8<
    FieldAt<0, u64, OrDefault<u64, u64>>,
    FieldAt<1, i64, OrDefault<i64, i64>>,
    FieldAt<2, f64, OrDefault<f64, f64>>,
    FieldAt<16, u64, Option<u64>>,
    FieldAt<17, f64, Option<f64>>,
    FieldAt<22, Gauge, Gauge>,
    FieldAt<3, f32, OrDefault<f32, f32>>,
    FieldAt<4, u32, OrDefault<u32, u32>>,
>;

#[derive(Drop)]
struct Manifest1FieldGroup {
    lines: Manifest1FieldLines,
}

impl FieldGroup for Manifest1FieldGroup {
    type Lines = Manifest1FieldLines;

    ghost lines_of = { λ group. group.lines };

    fn lines(&self) -> &Manifest1FieldLines {
        &self.lines
    }
}

type Manifest2FieldLines<'a> = Lines8<
    FieldAt<5, i32, OrDefault<i32, i32>>,
    FieldAt<18, i32, Option<i32>>,
    FieldAt<21, Pos, Option<Pos>>,
    FieldAt<23, Offset<Text>, &'a str>,
    FieldAt<24, Offset<Text>, Option<&'a str>>,
    FieldAt<25, Offset<List<u8>>, Option<ByteList<'a>>>,
    FieldAt<26, Offset<List<u8>>, ByteList<'a>>,
    FieldAt<27, Offset<List<f64>>, Option<&'a [f64]>>,
>;

#[derive(Drop)]
struct Manifest2FieldGroup<'a> {
    lines: Manifest2FieldLines<'a>,
}

impl<'a> FieldGroup for Manifest2FieldGroup<'a> {
    type Lines = Manifest2FieldLines<'a>;

    ghost lines_of = { λ group. group.lines };

    fn lines(&self) -> &Manifest2FieldLines<'a> {
        &self.lines
    }
}

type Manifest3FieldLines<'a> = Lines8<
    FieldAt<28, Offset<List<u32>>, &'a [u32]>,
    FieldAt<29, Offset<List<i16>>, Option<&'a [i16]>>,
    FieldAt<30, Offset<List<bool>>, Option<&'a [bool]>>,
    FieldAt<31, Offset<List<Kind>>, Option<&'a [Kind]>>,
    FieldAt<32, Offset<List<Pos>>, Option<&'a [Pos]>>,
    FieldAt<33, Offset<List<Offset<Text>>>, Option<&'a [&'a str]>>,
    FieldAt<34, Offset<List<Offset<Text>>>, &'a [&'a str]>,
    FieldAt<35, Offset<Ship>, Offset<Ship>>,
>;

#[derive(Drop)]
struct Manifest3FieldGroup<'a> {
    lines: Manifest3FieldLines<'a>,
}

impl<'a> FieldGroup for Manifest3FieldGroup<'a> {
    type Lines = Manifest3FieldLines<'a>;

    ghost lines_of = { λ group. group.lines };

    fn lines(&self) -> &Manifest3FieldLines<'a> {
        &self.lines
    }
}

type Manifest4FieldLines = Lines8<
    FieldAt<6, u16, OrDefault<u16, u16>>,
    FieldAt<7, i16, OrDefault<i16, i16>>,
    FieldAt<13, Level, OrDefault<Level, Level>>,
    FieldAt<14, Needs, OrDefault<Needs, Needs>>,
    FieldAt<8, u8, OrDefault<u8, u8>>,
    FieldAt<9, i8, OrDefault<i8, i8>>,
    FieldAt<10, bool, OrDefault<bool, bool>>,
    FieldAt<11, bool, OrDefault<bool, bool>>,
>;

#[derive(Drop)]
struct Manifest4FieldGroup {
    lines: Manifest4FieldLines,
}

impl FieldGroup for Manifest4FieldGroup {
    type Lines = Manifest4FieldLines;

    ghost lines_of = { λ group. group.lines };

    fn lines(&self) -> &Manifest4FieldLines {
        &self.lines
    }
}

impl<'a> Create<ManifestFields<'a>> for Manifest {
    ghost lines = { λ fields.
        number_or u64_shape 0 1 fields.number ∷
        signed_or i64_shape w64 1 (negsuc 0) fields.issued ∷
        plain_or f64_shape ⟦<f64 as PartialEq>⟧.eq 2 (of_bits binary64 4602678819172646912)
        fields.weight ∷
        plain_if u64_shape 16 fields.rank ∷
        plain_if f64_shape 17 fields.margin ∷
        required (plain_kind gauge_shape) 22 fields.gauge ∷
        plain_or f32_shape ⟦<f32 as PartialEq>⟧.eq 3 (of_bits binary32 0) fields.worth ∷
        number_or u32_shape 4 12 fields.boxes ∷
        signed_or i32_shape w32 5 (negsuc 6) fields.debt ∷
        plain_if i32_shape 18 fields.dues ∷
        plain_if pos_shape 21 fields.berth ∷
        required text_kind 23 fields.title ∷
        optional text_kind 24 fields.note ∷
        optional bytes_kind 25 fields.scan ∷
        required bytes_kind 26 fields.stamp ∷
        optional (plains f64_shape) 27 fields.weights ∷
        required (plains u32_shape) 28 fields.counts ∷
        optional (plains i16_shape) 29 fields.offsets ∷
        optional (plains bool_shape) 30 fields.marks ∷
        optional (judged kind_shape) 31 fields.kinds ∷
        optional (plains pos_shape) 32 fields.track ∷
        optional texts 33 fields.labels ∷
        required texts 34 fields.holders ∷
        required (table_kind Ship (λ (view : ShipRef). view.0)) 35 fields.ship ∷
        optional (table_kind Manifest (λ (view : ManifestRef). view.0)) 36 fields.next ∷
        optional (tables Person) 37 fields.persons ∷
        required (tables Manifest) 38 fields.parts ∷
        union owner_variants 39 fields.owner ∷
        union_required owner_variants 41 fields.payer ∷
        unions OwnerRef 43 fields.owners ∷
        number_or u16_shape 6 3 fields.pages ∷
        signed_or i16_shape w16 7 (negsuc 1) fields.shift ∷
        plain_or level_shape ⟦<Level as PartialEq>⟧.eq 13 level_value.High fields.level ∷
        plain_or needs_shape ⟦<Needs as PartialEq>⟧.eq 14 (record { bits = 2 }) fields.needs ∷
        number_or u8_shape 8 1 fields.tier ∷
        signed_or i8_shape w8 9 (negsuc 0) fields.lean ∷
        plain_or bool_shape ⟦<bool as PartialEq>⟧.eq 10 true fields.sealed ∷
        plain_or bool_shape ⟦<bool as PartialEq>⟧.eq 11 false fields.opened ∷
        plain_or kind_shape ⟦<Kind as PartialEq>⟧.eq 12 kind_value.Car fields.kind ∷
        plain_or signal_shape ⟦<Signal as PartialEq>⟧.eq 15 signal_value.Alfa fields.signal ∷
        plain_if bool_shape 19 fields.paid ∷
        plain_if kind_shape 20 fields.grade ∷ [] };

    ghost may = { λ fields builder. IsIn builder fields.ship ×
        MatchOption fields.next ⊤ (λ x. IsIn builder x) ×
        MatchOption fields.persons ⊤ (λ x. AllIn builder x.now) × AllIn builder fields.parts.now ×
        MatchOption fields.owner ⊤ (λ x. IsIn builder x.offset) ×
        IsIn builder fields.payer.offset × AllUnionsIn builder fields.owners.now };

    fn create(builder: &mut Builder, fields: ManifestFields<'a>) -> Built<Manifest> {
        let group1 = Manifest1FieldGroup {
            lines: fields![
                0: u64 = OrDefault { value: fields.number, default: 1 },
                1: i64 = OrDefault { value: fields.issued, default: -1 },
                2: f64 = OrDefault { value: fields.weight, default: DEFAULT_WEIGHT },
                16: u64 = fields.rank,
                17: f64 = fields.margin,
                22: Gauge = fields.gauge,
                3: f32 = OrDefault { value: fields.worth, default: DEFAULT_WORTH },
                4: u32 = OrDefault { value: fields.boxes, default: 12 },
            ],
        };
        let group2 = Manifest2FieldGroup {
            lines: fields![
                5: i32 = OrDefault { value: fields.debt, default: -7 },
                18: i32 = fields.dues,
                21: Pos = fields.berth,
                23: Offset<Text> = fields.title,
                24: Offset<Text> = fields.note,
                25: Offset<List<u8>> = fields.scan,
                26: Offset<List<u8>> = fields.stamp,
                27: Offset<List<f64>> = fields.weights,
            ],
        };
        let group3 = Manifest3FieldGroup {
            lines: fields![
                28: Offset<List<u32>> = fields.counts,
                29: Offset<List<i16>> = fields.offsets,
                30: Offset<List<bool>> = fields.marks,
                31: Offset<List<Kind>> = fields.kinds,
                32: Offset<List<Pos>> = fields.track,
                33: Offset<List<Offset<Text>>> = fields.labels,
                34: Offset<List<Offset<Text>>> = fields.holders,
                35: Offset<Ship> = fields.ship,
            ],
        };
        let group4 = Manifest4FieldGroup {
            lines: fields![
                6: u16 = OrDefault { value: fields.pages, default: 3 },
                7: i16 = OrDefault { value: fields.shift, default: -2 },
                13: Level = OrDefault { value: fields.level, default: Level::High },
                14: Needs = OrDefault { value: fields.needs, default: DEFAULT_NEEDS },
                8: u8 = OrDefault { value: fields.tier, default: 1 },
                9: i8 = OrDefault { value: fields.lean, default: -1 },
                10: bool = OrDefault { value: fields.sealed, default: true },
                11: bool = OrDefault { value: fields.opened, default: false },
            ],
        };
        let lines = fields![
            group group1,
            group group2,
            group group3,
            36: Offset<Manifest> = fields.next,
            37: Offset<List<Offset<Person>>> = fields.persons,
            38: Offset<List<Offset<Manifest>>> = fields.parts,
            (39, 40): union Owner = fields.owner,
            (41, 42): union Owner = fields.payer,
            (43, 44): unions Owner = OrDefault { value: fields.owners, default: () },
            group group4,
            12: Kind = OrDefault { value: fields.kind, default: Kind::Car },
            15: Signal = OrDefault { value: fields.signal, default: Signal::Alfa },
            19: bool = fields.paid,
            20: Kind = fields.grade,
        ];
        create_table::<Manifest, _>(builder, lines)
    }
}

/// One in a buffer.
#[derive(Clone, Copy)]
pub struct ManifestRef<'a>(pub(crate) Table<'a>);

impl<'a> ManifestRef<'a> {
    /// Returns `number`.
    pub fn number(&self) -> Result<u64>
        ensures { IsPlainFieldOr u64_shape 1 self.now.0 0 (codes "Manifest") (codes "number")
            result }
    {
        plain_field_or(&self.0, 0, 1, "Manifest", "number")
    }

    /// Returns `issued`.
    pub fn issued(&self) -> Result<i64>
        ensures { IsPlainFieldOr i64_shape (negsuc 0) self.now.0 1 (codes "Manifest")
            (codes "issued") result }
    {
        plain_field_or(&self.0, 1, -1, "Manifest", "issued")
    }

    /// Returns `weight`.
    pub fn weight(&self) -> Result<f64>
        ensures { IsPlainFieldOr f64_shape (of_bits binary64 4602678819172646912) self.now.0 2
            (codes "Manifest") (codes "weight") result }
    {
        plain_field_or(&self.0, 2, DEFAULT_WEIGHT, "Manifest", "weight")
    }

    /// Returns `worth`.
    pub fn worth(&self) -> Result<f32>
        ensures { IsPlainFieldOr f32_shape (of_bits binary32 0) self.now.0 3 (codes "Manifest")
            (codes "worth") result }
    {
        plain_field_or(&self.0, 3, DEFAULT_WORTH, "Manifest", "worth")
    }

    /// Returns `boxes`.
    pub fn boxes(&self) -> Result<u32>
        ensures { IsPlainFieldOr u32_shape 12 self.now.0 4 (codes "Manifest") (codes "boxes")
            result }
    {
        plain_field_or(&self.0, 4, 12, "Manifest", "boxes")
    }

    /// Returns `debt`.
    pub fn debt(&self) -> Result<i32>
        ensures { IsPlainFieldOr i32_shape (negsuc 6) self.now.0 5 (codes "Manifest")
            (codes "debt") result }
    {
        plain_field_or(&self.0, 5, -7, "Manifest", "debt")
    }

    /// Returns `pages`.
    pub fn pages(&self) -> Result<u16>
        ensures { IsPlainFieldOr u16_shape 3 self.now.0 6 (codes "Manifest") (codes "pages")
            result }
    {
        plain_field_or(&self.0, 6, 3, "Manifest", "pages")
    }

    /// Returns `shift`.
    pub fn shift(&self) -> Result<i16>
        ensures { IsPlainFieldOr i16_shape (negsuc 1) self.now.0 7 (codes "Manifest")
            (codes "shift") result }
    {
        plain_field_or(&self.0, 7, -2, "Manifest", "shift")
    }

    /// Returns `tier`.
    pub fn tier(&self) -> Result<u8>
        ensures { IsPlainFieldOr u8_shape 1 self.now.0 8 (codes "Manifest") (codes "tier") result }
    {
        plain_field_or(&self.0, 8, 1, "Manifest", "tier")
    }

    /// Returns `lean`.
    pub fn lean(&self) -> Result<i8>
        ensures { IsPlainFieldOr i8_shape (negsuc 0) self.now.0 9 (codes "Manifest") (codes "lean")
            result }
    {
        plain_field_or(&self.0, 9, -1, "Manifest", "lean")
    }

    /// Returns `sealed`.
    pub fn sealed(&self) -> Result<bool>
        ensures { IsPlainFieldOr bool_shape true self.now.0 10 (codes "Manifest") (codes "sealed")
            result }
    {
        plain_field_or(&self.0, 10, true, "Manifest", "sealed")
    }

    /// Returns `opened`.
    pub fn opened(&self) -> Result<bool>
        ensures { IsPlainFieldOr bool_shape false self.now.0 11 (codes "Manifest") (codes "opened")
            result }
    {
        plain_field_or(&self.0, 11, false, "Manifest", "opened")
    }

    /// Returns `kind`.
    pub fn kind(&self) -> Result<Kind>
        ensures { IsPlainFieldOr kind_shape kind_value.Car self.now.0 12 (codes "Manifest")
            (codes "kind") result }
    {
        plain_field_or(&self.0, 12, Kind::Car, "Manifest", "kind")
    }

    /// Returns `level`.
    pub fn level(&self) -> Result<Level>
        ensures { IsPlainFieldOr level_shape level_value.High self.now.0 13 (codes "Manifest")
            (codes "level") result }
    {
        plain_field_or(&self.0, 13, Level::High, "Manifest", "level")
    }

    /// Returns `needs`.
    pub fn needs(&self) -> Result<Needs>
        ensures { IsPlainFieldOr needs_shape (record { bits = 2 }) self.now.0 14 (codes "Manifest")
            (codes "needs") result }
    {
        plain_field_or(&self.0, 14, DEFAULT_NEEDS, "Manifest", "needs")
    }

    /// Returns `signal`.
    pub fn signal(&self) -> Result<Signal>
        ensures { IsPlainFieldOr signal_shape signal_value.Alfa self.now.0 15 (codes "Manifest")
            (codes "signal") result }
    {
        plain_field_or(&self.0, 15, Signal::Alfa, "Manifest", "signal")
    }

    /// Returns `rank`.
    pub fn rank(&self) -> Result<Option<u64>>
        ensures { IsPlainField u64_shape self.now.0 16 (codes "Manifest") (codes "rank") result }
    {
        plain_field(&self.0, 16, "Manifest", "rank")
    }

    /// Returns `margin`.
    pub fn margin(&self) -> Result<Option<f64>>
        ensures { IsPlainField f64_shape self.now.0 17 (codes "Manifest") (codes "margin") result }
    {
        plain_field(&self.0, 17, "Manifest", "margin")
    }

    /// Returns `dues`.
    pub fn dues(&self) -> Result<Option<i32>>
        ensures { IsPlainField i32_shape self.now.0 18 (codes "Manifest") (codes "dues") result }
    {
        plain_field(&self.0, 18, "Manifest", "dues")
    }

    /// Returns `paid`.
    pub fn paid(&self) -> Result<Option<bool>>
        ensures { IsPlainField bool_shape self.now.0 19 (codes "Manifest") (codes "paid") result }
    {
        plain_field(&self.0, 19, "Manifest", "paid")
    }

    /// Returns `grade`.
    pub fn grade(&self) -> Result<Option<Kind>>
        ensures { IsPlainField kind_shape self.now.0 20 (codes "Manifest") (codes "grade") result }
    {
        plain_field(&self.0, 20, "Manifest", "grade")
    }

    /// Returns `berth`.
    pub fn berth(&self) -> Result<Option<Pos>>
        ensures { IsPlainField pos_shape self.now.0 21 (codes "Manifest") (codes "berth") result }
    {
        plain_field(&self.0, 21, "Manifest", "berth")
    }

    /// Returns `gauge`.
    pub fn gauge(&self) -> Result<Gauge>
        ensures { IsPlainRequired gauge_shape self.now.0 22 (codes "Manifest") (codes "gauge")
            result }
    {
        plain_required(&self.0, 22, "Manifest", "gauge")
    }

    /// Returns `title`.
    pub fn title(&self) -> Result<&'a str>
        ensures { IsTextRequired self.now.0 23 (codes "Manifest") (codes "title") result }
    {
        text_required(&self.0, 23, "Manifest", "title")
    }

    /// Returns `note`.
    pub fn note(&self) -> Result<Option<&'a str>>
        ensures { IsTextField self.now.0 24 (codes "Manifest") (codes "note") result }
    {
        text_field(&self.0, 24, "Manifest", "note")
    }

    /// Returns `scan`.
    pub fn scan(&self) -> Result<Option<&'a [u8]>>
        ensures { IsBytesField self.now.0 25 (codes "Manifest") (codes "scan") result }
    {
        bytes_field(&self.0, 25, "Manifest", "scan")
    }

    /// Returns `stamp`.
    pub fn stamp(&self) -> Result<&'a [u8]>
        ensures { IsBytesRequired self.now.0 26 (codes "Manifest") (codes "stamp") result }
    {
        bytes_required(&self.0, 26, "Manifest", "stamp")
    }

    /// Returns `weights`.
    pub fn weights(&self) -> Result<Option<Vector<'a, f64>>>
        ensures { IsPlainVector self.now.0 27 (codes "Manifest") (codes "weights") result }
    {
        plain_vector(&self.0, 27, "Manifest", "weights")
    }

    /// Returns `counts`.
    pub fn counts(&self) -> Result<Vector<'a, u32>>
        ensures { IsPlainVectorRequired self.now.0 28 (codes "Manifest") (codes "counts") result }
    {
        plain_vector_required(&self.0, 28, "Manifest", "counts")
    }

    /// Returns `offsets`.
    pub fn offsets(&self) -> Result<Option<Vector<'a, i16>>>
        ensures { IsPlainVector self.now.0 29 (codes "Manifest") (codes "offsets") result }
    {
        plain_vector(&self.0, 29, "Manifest", "offsets")
    }

    /// Returns `marks`.
    pub fn marks(&self) -> Result<Option<Vector<'a, bool>>>
        ensures { IsPlainVector self.now.0 30 (codes "Manifest") (codes "marks") result }
    {
        plain_vector(&self.0, 30, "Manifest", "marks")
    }

    /// Returns `kinds`.
    pub fn kinds(&self) -> Result<Option<Vector<'a, Result<Kind>>>>
        ensures { IsPlainVector self.now.0 31 (codes "Manifest") (codes "kinds") result }
    {
        plain_vector(&self.0, 31, "Manifest", "kinds")
    }

    /// Returns `track`.
    pub fn track(&self) -> Result<Option<Vector<'a, Pos>>>
        ensures { IsPlainVector self.now.0 32 (codes "Manifest") (codes "track") result }
    {
        plain_vector(&self.0, 32, "Manifest", "track")
    }

    /// Returns `labels`.
    pub fn labels(&self) -> Result<Option<Vector<'a, Result<&'a str>>>>
        ensures { IsTextVector self.now.0 33 (codes "Manifest") (codes "labels") result }
    {
        text_vector(&self.0, 33, "Manifest", "labels")
    }

    /// Returns `holders`.
    pub fn holders(&self) -> Result<Vector<'a, Result<&'a str>>>
        ensures { IsTextVectorRequired self.now.0 34 (codes "Manifest") (codes "holders") result }
    {
        text_vector_required(&self.0, 34, "Manifest", "holders")
    }

    /// Returns `ship`.
    pub fn ship(&self) -> Result<ShipRef<'a>>
        ensures { IsTableRequired Ship (λ view. view.0) self.now.0 35 (codes "Manifest")
            (codes "ship") result }
    {
        table_required(&self.0, 35, "Manifest", "ship")
    }

    /// Returns `next`.
    pub fn next(&self) -> Result<Option<ManifestRef<'a>>>
        ensures { IsTableField Manifest (λ view. view.0) self.now.0 36 (codes "Manifest")
            (codes "next") result }
    {
        table_field(&self.0, 36, "Manifest", "next")
    }

    /// Returns `persons`.
    pub fn persons(&self) -> Result<Option<Vector<'a, Result<PersonRef<'a>>>>>
        ensures { IsTableVector Person self.now.0 37 (codes "Manifest") (codes "persons") result }
    {
        table_vector(&self.0, 37, "Manifest", "persons")
    }

    /// Returns `parts`.
    pub fn parts(&self) -> Result<Vector<'a, Result<ManifestRef<'a>>>>
        ensures { IsTableVectorRequired Manifest self.now.0 38 (codes "Manifest") (codes "parts")
            result }
    {
        table_vector_required(&self.0, 38, "Manifest", "parts")
    }

    /// Returns `owner`.
    pub fn owner(&self) -> Result<Option<OwnerRef<'a>>>
        ensures { IsUnionField (ReadsVariants owner_variants) self.now.0 39 (codes "Manifest")
            (codes "owner") Owner result }
    {
        union_field::<Owner, OwnerRef<'a>>(&self.0, 39, "Manifest", "owner")
    }

    /// Returns `payer`.
    pub fn payer(&self) -> Result<OwnerRef<'a>>
        ensures { IsUnionRequired (ReadsVariants owner_variants) self.now.0 41 (codes "Manifest")
            (codes "payer") result }
    {
        union_required::<OwnerRef<'a>>(&self.0, 41, "Manifest", "payer")
    }

    /// Returns `owners`.
    pub fn owners(&self) -> Result<Option<UnionVector<'a, OwnerRef<'a>>>>
        ensures { IsUnionVector self.now.0 43 (codes "Manifest") (codes "owners") result }
    {
        union_vector(&self.0, 43, "Manifest", "owners")
    }
}

impl<'a> TableView<'a> for ManifestRef<'a> {
    type Kind = Manifest;

    ghost table = { λ view. view.0 };

    fn of_table(read: Table<'a>) -> ManifestRef<'a> {
        ManifestRef(read)
    }
}

impl<'a> Stride for ManifestRef<'a> {
    type Stands = u32;
}

impl<'a> planus::ReadError for ManifestRef<'a> {
    type Error = planus::Error;
}

impl<'a> planus::VectorReadInner<'a> for ManifestRef<'a> {
    ghost gives = { gives_as (λ view. view.0) (codes "[ManifestRef]") };

    fn from_buffer(buffer: SliceWithStartOffset<'a>, offset: usize) -> Result<ManifestRef<'a>> {
        planus::read_item(buffer, offset)
    }
}

impl TableKind for Manifest {
    type Writer = TableWriter<94>;

    ghost name = { codes "[ManifestRef]" };

    fn name() -> &'static str {
        "[ManifestRef]"
    }
}

impl<'a> std::fmt::Debug for ManifestRef<'a> {
    fn fmt<W: std::fmt::Write>(&self, f: &mut std::fmt::Formatter<W>) -> std::fmt::Result {
        let mut shown = f.debug_struct("ManifestRef");
        shown.field("number", &self.number());
        shown.field("issued", &self.issued());
        shown.field("weight", &self.weight());
        shown.field("worth", &self.worth());
        shown.field("boxes", &self.boxes());
        shown.field("debt", &self.debt());
        shown.field("pages", &self.pages());
        shown.field("shift", &self.shift());
        shown.field("tier", &self.tier());
        shown.field("lean", &self.lean());
        shown.field("sealed", &self.sealed());
        shown.field("opened", &self.opened());
        shown.field("kind", &self.kind());
        shown.field("level", &self.level());
        shown.field("needs", &self.needs());
        shown.field("signal", &self.signal());
        shown.field("rank", &self.rank());
        shown.field("margin", &self.margin());
        shown.field("dues", &self.dues());
        shown.field("paid", &self.paid());
        shown.field("grade", &self.grade());
        shown.field("berth", &self.berth());
        shown.field("gauge", &self.gauge());
        shown.field("title", &self.title());
        shown.field("note", &self.note());
        shown.field("scan", &self.scan());
        shown.field("stamp", &self.stamp());
        shown.field("weights", &self.weights());
        shown.field("counts", &self.counts());
        shown.field("offsets", &self.offsets());
        shown.field("marks", &self.marks());
        shown.field("kinds", &self.kinds());
        shown.field("track", &self.track());
        shown.field("labels", &self.labels());
        shown.field("holders", &self.holders());
        shown.field("ship", &self.ship());
        shown.field(
            "next",
            &planus_views::Unread::new(self.0, 36, "ManifestRef"),
        );
        shown.field("persons", &self.persons());
        shown.field(
            "parts",
            &planus_views::Unread::new(self.0, 38, "[ManifestRef]"),
        );
        shown.field("owner", &self.owner());
        shown.field("payer", &self.payer());
        shown.field("owners", &self.owners());
        shown.finish()
    }
}
