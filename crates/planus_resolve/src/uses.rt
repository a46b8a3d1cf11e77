//! The names that a schema uses, in order.

ghost use Rattle.std.specs.Prelude.{◌≡◌, ◌++◌, codes, map, IfOk, OnOk};
ghost use Rattle.planus_resolve.specs.Names.{used_as};
ghost use Rattle.planus_resolve.specs.Uses.{spot_of, event_of};
ghost use Rattle.planus_resolve.specs.Uses.{path_used, nested_used, field_used, fields_used};
ghost use Rattle.planus_resolve.specs.Uses.{member_used, members_used, method_used, methods_used};
ghost use Rattle.planus_resolve.specs.Uses.{item_used, declaration_used, declarations_used};
ghost use Rattle.planus_resolve.specs.Uses.{files_used};
ghost use Rattle.planus_resolve.specs.Names.{attribute_named};

use crate::attributes::setting;
use crate::fault::or_return;
use crate::head::{own_name, space_after};
use crate::kind::plain_base;
use crate::lookup::Wanted;
use crate::unions::{target_of, wanted_of};
use planus_syntax::{
    Attribute, Declaration, Field, Item, Kind, Literal, Member, Method, Path, between_quotes,
};
use std::alloc::{AllocError, Global};

/// The file and the namespace of a declaration.
#[derive(Clone, Copy)]
pub(crate) struct Spot<'a> {
    pub(crate) file: usize,
    pub(crate) space: Option<&'a Path>,
}

/// A name, how it is used, and where.
#[derive(Clone, Copy)]
pub(crate) struct Use<'a> {
    pub(crate) wanted: Wanted,
    pub(crate) spot: Spot<'a>,
    pub(crate) first: &'a [u8],
    pub(crate) more: &'a [Vec<u8>],
    pub(crate) left: usize,
}

/// What is read, one after another.
#[derive(Clone, Copy)]
pub(crate) enum Event<'a> {
    /// A declaration of this name begins.
    Begins(&'a [u8]),
    Uses(Use<'a>),
}

fn put_path<'a>(
    out: &mut Vec<Event<'a>>,
    spot: Spot<'a>,
    wanted: Wanted,
    path: &'a Path,
) -> Result<(), AllocError>
    ensures { OnOk result (map event_of out.new.items ≡ map event_of out.old.items
        ++ path_used (spot_of spot.entry) (used_as wanted) path.now) }
{
    if plain_base(path).is_some() {
        return Ok(());
    }
    let usage = Use {
        wanted,
        spot,
        first: &path.first,
        more: &path.more,
        left: path.left,
    };
    out.push(Event::Uses(usage))?;
    Ok(())
}

fn put_nested<'a>(
    out: &mut Vec<Event<'a>>,
    spot: Spot<'a>,
    attributes: &'a [Attribute],
) -> Result<(), AllocError>
    ensures { OnOk result (map event_of out.new.items ≡ map event_of out.old.items
        ++ nested_used (spot_of spot.entry)
        (attribute_named (codes "nested_flatbuffer") attributes.now)) }
{
    let Some(attribute) = setting(attributes, b"nested_flatbuffer") else {
        return Ok(());
    };
    let Some(Literal::Text(string)) = &attribute.value else {
        return Ok(());
    };
    let usage = Use {
        wanted: Wanted::Record,
        spot,
        first: between_quotes(string),
        more: &[],
        left: attribute.label.left,
    };
    out.push(Event::Uses(usage))?;
    Ok(())
}

fn put_field<'a>(
    out: &mut Vec<Event<'a>>,
    spot: Spot<'a>,
    field: &'a Field,
) -> Result<(), AllocError>
    ensures { OnOk result (map event_of out.new.items ≡ map event_of out.old.items
        ++ field_used (spot_of spot.entry) field.now) }
{
    let path = match &field.kind {
        Kind::Single(path) => path,
        Kind::Vector(path) => path,
        Kind::Array(path, _) => path,
    };
    or_return!(put_path(out, spot, Wanted::AnyType, path));
    put_nested(out, spot, &field.attributes)
}

fn put_fields<'a>(
    out: &mut Vec<Event<'a>>,
    spot: Spot<'a>,
    fields: &'a [Field],
) -> Result<(), AllocError>
    ensures { OnOk result (map event_of out.new.items ≡ map event_of out.old.items
        ++ fields_used (spot_of spot.entry) fields.now) }
{
    'fields: for field in fields {
        or_return!(put_field(out, spot, field));
    }
    Ok(())
}

fn put_member<'a>(
    out: &mut Vec<Event<'a>>,
    spot: Spot<'a>,
    member: &'a Member,
) -> Result<(), AllocError>
    ensures { OnOk result (map event_of out.new.items ≡ map event_of out.old.items
        ++ member_used (spot_of spot.entry) member.now) }
{
    put_path(out, spot, wanted_of(member), target_of(member))
}

fn put_members<'a>(
    out: &mut Vec<Event<'a>>,
    spot: Spot<'a>,
    members: &'a [Member],
) -> Result<(), AllocError>
    ensures { OnOk result (map event_of out.new.items ≡ map event_of out.old.items
        ++ members_used (spot_of spot.entry) members.now) }
{
    'members: for member in members {
        or_return!(put_member(out, spot, member));
    }
    Ok(())
}

fn put_method<'a>(
    out: &mut Vec<Event<'a>>,
    spot: Spot<'a>,
    method: &'a Method,
) -> Result<(), AllocError>
    ensures { OnOk result (map event_of out.new.items ≡ map event_of out.old.items
        ++ method_used (spot_of spot.entry) method.now) }
{
    or_return!(put_path(out, spot, Wanted::AnyType, &method.request));
    put_path(out, spot, Wanted::AnyType, &method.response)
}

fn put_methods<'a>(
    out: &mut Vec<Event<'a>>,
    spot: Spot<'a>,
    methods: &'a [Method],
) -> Result<(), AllocError>
    ensures { OnOk result (map event_of out.new.items ≡ map event_of out.old.items
        ++ methods_used (spot_of spot.entry) methods.now) }
{
    'methods: for method in methods {
        or_return!(put_method(out, spot, method));
    }
    Ok(())
}

fn put_item<'a>(out: &mut Vec<Event<'a>>, spot: Spot<'a>, item: &'a Item) -> Result<(), AllocError>
    ensures { OnOk result (map event_of out.new.items ≡ map event_of out.old.items
        ++ item_used (spot_of spot.entry) item.now) }
{
    match item {
        Item::Table(record) | Item::Struct(record) => put_fields(out, spot, &record.fields),
        Item::Union(body) => put_members(out, spot, &body.members),
        Item::Service(service) => put_methods(out, spot, &service.methods),
        Item::RootType(path) => put_path(out, spot, Wanted::Root, path),
        _ => Ok(()),
    }
}

fn put_declaration<'a>(
    out: &mut Vec<Event<'a>>,
    spot: Spot<'a>,
    declaration: &'a Declaration,
) -> Result<(), AllocError>
    ensures { OnOk result (map event_of out.new.items ≡ map event_of out.old.items
        ++ declaration_used (spot_of spot.entry) declaration.now) }
{
    if let Some(name) = own_name(&declaration.item) {
        out.push(Event::Begins(name))?;
    }
    put_item(out, spot, &declaration.item)
}

fn put_declarations<'a>(
    out: &mut Vec<Event<'a>>,
    file: usize,
    declarations: &'a [Declaration],
) -> Result<(), AllocError>
    ensures { OnOk result (map event_of out.new.items ≡ map event_of out.old.items
        ++ declarations_used file None declarations.now) }
{
    let mut space = None;
    'declarations: for declaration in declarations {
        let spot = Spot { file, space };
        or_return!(put_declaration(out, spot, declaration));
        space = space_after(space, declaration);
    }
    Ok(())
}

/// Returns what is read of these files.
pub(crate) fn events(
    alloc: Global,
    files: &[Vec<Declaration>],
) -> Result<Vec<Event<'_>>, AllocError>
    ensures { IfOk result (λ v. map event_of v.items ≡ files_used 0 files.now) }
{
    let mut out = Vec::new(alloc);
    let mut file = 0;
    'files: for declarations in files {
        or_return!(put_declarations(&mut out, file, declarations));
        file += 1;
    }
    Ok(out)
}
