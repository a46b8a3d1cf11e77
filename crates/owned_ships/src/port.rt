//! Tables `Port`.

ghost use Rattle.std.specs.Prelude.{◌∷◌, [], codes, refl};
ghost use Rattle.planus.specs.Printed.{IsIn, IsTextRequired, IsTableRequired, text_kind};
ghost use Rattle.planus.specs.Printed.{table_kind, required};
ghost use Rattle.planus_owned.specs.Printed.{IsMade, OwnsTable};
ghost use Rattle.owned_ships.specs.Port.{port_owned};
ghost use Rattle.owned_ships.specs.Ship.{ship_owned};
ghost use Rattle.owned_ships.specs.declared.ship.Ship.{Ship};
ghost use Rattle.owned_ships.specs.declared.ship.ShipRef.{ShipRef};

use crate::ship::{Ship, ShipRef};
use planus::table_reader::Table;
use planus::{
    Builder, Built, Create, Offset, Result, TableKind, TableView, TableWriter, Text, create_table,
    fields, table_required, text_required,
};
use planus_owned::{Owned, below, own_table, own_text};
use std::alloc::Global;

/// A port, and the kind of an offset to one.
#[derive(Debug, PartialEq, Drop)]
pub struct Port {
    pub name: String,
    pub flagship: Box<Ship>,
}

/// The fields of `Port`, as [`Port::create`] takes them.
#[derive(Drop)]
pub struct PortFields<'a> {
    pub name: &'a str,
    pub flagship: Offset<Ship>,
}

impl<'a> Create<PortFields<'a>> for Port {
    ghost lines = { λ fields.
        required text_kind 0 fields.name ∷
        required (table_kind Ship (λ (view : ShipRef). view.0)) 1 fields.flagship ∷ [] };

    ghost may = { λ fields builder. IsIn builder fields.flagship };

    fn create(builder: &mut Builder, fields: PortFields<'a>) -> Built<Port> {
        let lines = fields![
            0: Offset<Text> = fields.name,
            1: Offset<Ship> = fields.flagship,
        ];
        create_table::<Port, _>(builder, lines)
    }
}

/// One in a buffer.
#[derive(Clone, Copy)]
pub struct PortRef<'a>(pub(crate) Table<'a>);

impl<'a> PortRef<'a> {
    /// Returns `name`.
    pub fn name(&self) -> Result<&'a str>
        ensures { IsTextRequired self.now.0 0 (codes "Port") (codes "name") result }
    {
        text_required(&self.0, 0, "Port", "name")
    }

    /// Returns `flagship`.
    pub fn flagship(&self) -> Result<ShipRef<'a>>
        ensures { IsTableRequired Ship (λ view. view.0) self.now.0 1 (codes "Port")
            (codes "flagship") result }
    {
        table_required(&self.0, 1, "Port", "flagship")
    }

    fn own_flagship(&self, below: u32, alloc: Global) -> planus_owned::Result<Box<Ship>>
        ensures { OwnsTable Ship (λ (view : ShipRef). view.0) (ship_owned below) self.now.0 1 (codes "Port")
            (codes "flagship") result }
    {
        own_table(
            self.flagship(),
            |view|
                ensures { IsMade (ship_owned below) view.entry.0 result }
            { view.to_record(below, alloc) },
            alloc,
        )
    }

    /// Makes a record of it, in which at most `depth` tables lie within each other, itself included.
    /// Fails as a field's read, or with `OwnError::TooDeep` or `OwnError::OutOfMemory`.
    pub fn to_record(&self, depth: u32, alloc: Global) -> planus_owned::Result<Port>
        ensures { IsMade (port_owned depth) self.now.0 result }
    {
        let below = below::<Port>(depth)?;
        Ok(Port {
            name: own_text(&self.0, 0, "Port", "name", alloc)?,
            flagship: self.own_flagship(below, alloc)?,
        })
    }
}

impl Owned for Port {
    ghost owned = { port_owned };

    ghost spent = { refl };
}

impl<'a> TableView<'a> for PortRef<'a> {
    type Kind = Port;

    ghost table = { λ view. view.0 };

    fn of_table(read: Table<'a>) -> PortRef<'a> {
        PortRef(read)
    }
}

impl TableKind for Port {
    type Writer = TableWriter<8>;

    ghost name = { codes "[PortRef]" };

    fn name() -> &'static str {
        "[PortRef]"
    }
}
