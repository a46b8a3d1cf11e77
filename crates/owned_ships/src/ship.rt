//! Tables `Ship`.

ghost use Rattle.std.specs.Prelude.{◌≡◌, ◌∷◌, [], codes, refl, negsuc, true, MatchOption, ⊤};
ghost use Rattle.std.specs.Int.{w16};
ghost use Rattle.planus.specs.Printed.{of_bits, binary32, u16_shape, i16_shape, i32_shape};
ghost use Rattle.planus.specs.Printed.{bool_shape, f32_shape, IsIn, IsTextRequired, IsTextField};
ghost use Rattle.planus.specs.Printed.{IsTableField, text_kind, table_kind, IsPlainField};
ghost use Rattle.planus.specs.Printed.{IsPlainFieldOr, optional, required, plain_if, plain_or};
ghost use Rattle.planus.specs.Printed.{number_or, signed_or};
ghost use Rattle.owned_ships.specs.Kind.{kind_shape};
ghost use Rattle.owned_ships.specs.declared.kind.Kind.TheVariants as kind_value;
ghost use Rattle.owned_ships.specs.Person.{person_owned};
ghost use Rattle.owned_ships.specs.declared.person.Person.{Person};
ghost use Rattle.owned_ships.specs.declared.person.PersonRef.{PersonRef};
ghost use Rattle.owned_ships.specs.Pos.{pos_shape};
ghost use Rattle.planus_owned.specs.Printed.{IsMade, OwnsTableIf};
ghost use Rattle.owned_ships.specs.Ship.{ship_owned};
ghost use Rattle.owned_ships.specs.declared.ship.Ship.{Ship};
ghost use Rattle.owned_ships.specs.declared.ship.ShipRef.{ShipRef};

use crate::kind::Kind;
use crate::person::{Person, PersonRef};
use crate::pos::Pos;
use planus::table_reader::Table;
use planus::{
    Builder, Built, Create, Offset, OrDefault, Result, TableKind, TableView, TableWriter, Text,
    create_table, fields, plain_field, plain_field_or, table_field, text_field, text_required,
};
use planus_owned::{Owned, below, own_plain_if, own_plain_or, own_table_if, own_text, own_text_if};
use std::alloc::Global;

/// The default of `heat`.
pub const DEFAULT_HEAT: f32 = 1.5;

/// A ship, and the kind of an offset to one.
#[derive(Debug, PartialEq, Drop)]
pub struct Ship {
    pub name: String,
    pub hull: u16,
    pub kind: Kind,
    pub home: Option<Pos>,
    pub heat: f32,
    pub depth: i16,
    pub open: bool,
    pub maybe: Option<i32>,
    pub note: Option<String>,
    pub captain: Option<Box<Person>>,
    pub mate: Option<Box<Ship>>,
}

/// The fields of `Ship`, as [`Ship::create`] takes them.
#[derive(Drop)]
pub struct ShipFields<'a> {
    pub name: &'a str,
    pub hull: u16,
    pub kind: Kind,
    pub home: Option<Pos>,
    pub heat: f32,
    pub depth: i16,
    pub open: bool,
    pub maybe: Option<i32>,
    pub note: Option<&'a str>,
    pub captain: Option<Offset<Person>>,
    pub mate: Option<Offset<Ship>>,
}

impl<'a> Create<ShipFields<'a>> for Ship {
    ghost lines = { λ fields.
        required text_kind 0 fields.name ∷
        plain_if pos_shape 3 fields.home ∷
        plain_or f32_shape ⟦<f32 as PartialEq>⟧.eq 4 (of_bits binary32 1069547520) fields.heat ∷
        plain_if i32_shape 7 fields.maybe ∷
        optional text_kind 8 fields.note ∷
        optional (table_kind Person (λ (view : PersonRef). view.0)) 9 fields.captain ∷
        optional (table_kind Ship (λ (view : ShipRef). view.0)) 10 fields.mate ∷
        number_or u16_shape 1 100 fields.hull ∷
        signed_or i16_shape w16 5 (negsuc 4) fields.depth ∷
        plain_or kind_shape ⟦<Kind as PartialEq>⟧.eq 2 kind_value.Bike fields.kind ∷
        plain_or bool_shape ⟦<bool as PartialEq>⟧.eq 6 true fields.open ∷ [] };

    ghost may = { λ fields builder. MatchOption fields.captain ⊤ (λ x. IsIn builder x) ×
        MatchOption fields.mate ⊤ (λ x. IsIn builder x) };

    fn create(builder: &mut Builder, fields: ShipFields<'a>) -> Built<Ship> {
        let lines = fields![
            0: Offset<Text> = fields.name,
            3: Pos = fields.home,
            4: f32 = OrDefault { value: fields.heat, default: DEFAULT_HEAT },
            7: i32 = fields.maybe,
            8: Offset<Text> = fields.note,
            9: Offset<Person> = fields.captain,
            10: Offset<Ship> = fields.mate,
            1: u16 = OrDefault { value: fields.hull, default: 100 },
            5: i16 = OrDefault { value: fields.depth, default: -5 },
            2: Kind = OrDefault { value: fields.kind, default: Kind::Bike },
            6: bool = OrDefault { value: fields.open, default: true },
        ];
        create_table::<Ship, _>(builder, lines)
    }
}

/// One in a buffer.
#[derive(Clone, Copy)]
pub struct ShipRef<'a>(pub(crate) Table<'a>);

impl<'a> ShipRef<'a> {
    /// Returns `name`.
    pub fn name(&self) -> Result<&'a str>
        ensures { IsTextRequired self.now.0 0 (codes "Ship") (codes "name") result }
    {
        text_required(&self.0, 0, "Ship", "name")
    }

    /// Returns `hull`.
    pub fn hull(&self) -> Result<u16>
        ensures { IsPlainFieldOr u16_shape 100 self.now.0 1 (codes "Ship") (codes "hull") result }
    {
        plain_field_or(&self.0, 1, 100, "Ship", "hull")
    }

    /// Returns `kind`.
    pub fn kind(&self) -> Result<Kind>
        ensures { IsPlainFieldOr kind_shape kind_value.Bike self.now.0 2 (codes "Ship")
            (codes "kind") result }
    {
        plain_field_or(&self.0, 2, Kind::Bike, "Ship", "kind")
    }

    /// Returns `home`.
    pub fn home(&self) -> Result<Option<Pos>>
        ensures { IsPlainField pos_shape self.now.0 3 (codes "Ship") (codes "home") result }
    {
        plain_field(&self.0, 3, "Ship", "home")
    }

    /// Returns `heat`.
    pub fn heat(&self) -> Result<f32>
        ensures { IsPlainFieldOr f32_shape (of_bits binary32 1069547520) self.now.0 4
            (codes "Ship") (codes "heat") result }
    {
        plain_field_or(&self.0, 4, DEFAULT_HEAT, "Ship", "heat")
    }

    /// Returns `depth`.
    pub fn depth(&self) -> Result<i16>
        ensures { IsPlainFieldOr i16_shape (negsuc 4) self.now.0 5 (codes "Ship") (codes "depth")
            result }
    {
        plain_field_or(&self.0, 5, -5, "Ship", "depth")
    }

    /// Returns `open`.
    pub fn open(&self) -> Result<bool>
        ensures { IsPlainFieldOr bool_shape true self.now.0 6 (codes "Ship") (codes "open")
            result }
    {
        plain_field_or(&self.0, 6, true, "Ship", "open")
    }

    /// Returns `maybe`.
    pub fn maybe(&self) -> Result<Option<i32>>
        ensures { IsPlainField i32_shape self.now.0 7 (codes "Ship") (codes "maybe") result }
    {
        plain_field(&self.0, 7, "Ship", "maybe")
    }

    /// Returns `note`.
    pub fn note(&self) -> Result<Option<&'a str>>
        ensures { IsTextField self.now.0 8 (codes "Ship") (codes "note") result }
    {
        text_field(&self.0, 8, "Ship", "note")
    }

    /// Returns `captain`.
    pub fn captain(&self) -> Result<Option<PersonRef<'a>>>
        ensures { IsTableField Person (λ view. view.0) self.now.0 9 (codes "Ship")
            (codes "captain") result }
    {
        table_field(&self.0, 9, "Ship", "captain")
    }

    /// Returns `mate`.
    pub fn mate(&self) -> Result<Option<ShipRef<'a>>>
        ensures { IsTableField Ship (λ view. view.0) self.now.0 10 (codes "Ship") (codes "mate")
            result }
    {
        table_field(&self.0, 10, "Ship", "mate")
    }

    fn own_captain(&self, below: u32, alloc: Global) -> planus_owned::Result<Option<Box<Person>>>
        ensures { OwnsTableIf Person (λ (view : PersonRef). view.0) (person_owned below) self.now.0 9
            (codes "Ship") (codes "captain") result }
    {
        own_table_if(
            self.captain(),
            |view|
                ensures { IsMade (person_owned below) view.entry.0 result }
            { view.to_record(below, alloc) },
            alloc,
        )
    }

    #[cycle(ship)]
    fn own_mate(&self, below: u32, alloc: Global) -> planus_owned::Result<Option<Box<Ship>>>
        ensures { OwnsTableIf Ship (λ (view : ShipRef). view.0) (ship_owned below) self.now.0 10
            (codes "Ship") (codes "mate") result }
    {
        own_table_if(
            self.mate(),
            |view|
                ensures { IsMade (ship_owned below) view.entry.0 result }
            { view.to_record(below, alloc) },
            alloc,
        )
    }

    /// Makes a record of it, in which at most `depth` tables lie within each other, itself included.
    /// Fails as a field's read, or with `OwnError::TooDeep` or `OwnError::OutOfMemory`.
    #[cycle(ship)]
    pub fn to_record(&self, depth: u32, alloc: Global) -> planus_owned::Result<Ship>
        ensures { IsMade (ship_owned depth) self.now.0 result }
    {
        let below = below::<Ship>(depth)?;
        Ok(Ship {
            name: own_text(&self.0, 0, "Ship", "name", alloc)?,
            hull: own_plain_or(&self.0, 1, 100, "Ship", "hull")?,
            kind: own_plain_or(&self.0, 2, Kind::Bike, "Ship", "kind")?,
            home: own_plain_if(&self.0, 3, "Ship", "home")?,
            heat: own_plain_or(&self.0, 4, DEFAULT_HEAT, "Ship", "heat")?,
            depth: own_plain_or(&self.0, 5, -5, "Ship", "depth")?,
            open: own_plain_or(&self.0, 6, true, "Ship", "open")?,
            maybe: own_plain_if(&self.0, 7, "Ship", "maybe")?,
            note: own_text_if(&self.0, 8, "Ship", "note", alloc)?,
            captain: self.own_captain(below, alloc)?,
            mate: self.own_mate(below, alloc)?,
        })
    }
}

impl Owned for Ship {
    ghost owned = { ship_owned };

    ghost spent = { refl };
}

impl<'a> TableView<'a> for ShipRef<'a> {
    type Kind = Ship;

    ghost table = { λ view. view.0 };

    fn of_table(read: Table<'a>) -> ShipRef<'a> {
        ShipRef(read)
    }
}

impl TableKind for Ship {
    type Writer = TableWriter<26>;

    ghost name = { codes "[ShipRef]" };

    fn name() -> &'static str {
        "[ShipRef]"
    }
}
