//! Ports, whose fields are required, and entries of a log that refer to others.

ghost use Rattle.std.specs.Prelude.{IfOk};
ghost use Rattle.planus.specs.write.InBuilder.{IsIn};
ghost use Rattle.planus.specs.write.State.{Grows};

use super::structs::GAUGE;
use super::{is_plain, plain_ship, the_line};
use harbour::{
    Cause, CauseRef, Company, Create, Entry, EntryFields, EntryRef, Kind, Origin, OriginFields,
    OriginRef, Owner, OwnerRef, Port, PortFields, PortRef, Ship, Signal, has_identifier,
};
use planus::{BuildError, Builder, ByteList, Offset, plain_item, read_root, text_item, union_item};

type Written<T> = std::result::Result<T, BuildError>;

fn has_values(port: &PortRef<'_>) -> bool {
    matches!(port.berths(), Ok(berths) if matches!(text_item(&berths, 1), Some(Ok("south"))))
        && matches!(port.soundings(), Ok(read) if plain_item(&read, 1) == Some(u16::MAX))
        && matches!(port.chart(), Ok([9, 8]))
        && matches!(port.gauge(), Ok(Some(gauge)) if gauge == GAUGE)
        && matches!(port.hoisted(), Ok(Signal::Zulu))
}

fn has_ships(port: &PortRef<'_>) -> bool {
    match port.ships() {
        Ok(ships) => {
            ships.len() == 1
                && matches!(ships.get(0), Some(Ok(ship)) if is_plain(&ship, "Bo", Kind::Car))
        }
        Err(_) => false,
    }
}

fn has_owners(port: &PortRef<'_>) -> bool {
    let second = match port.shares() {
        Ok(shares) => union_item(&shares, 1),
        Err(_) => None,
    };
    matches!(port.owner(), Ok(OwnerRef::Firm(firm)) if matches!(firm.title(), Ok(Some("Line"))))
        && matches!(second, Some(Ok(OwnerRef::Firm(firm))) if matches!(firm.vat(), Ok(Some([9]))))
}

fn is_port(bytes: &[u8]) -> bool {
    let port: planus::Result<PortRef<'_>> = read_root(bytes);
    matches!(
        port,
        Ok(port) if has_values(&port) && has_ships(&port) && has_owners(&port)
    )
}

pub fn writes_port(builder: &mut Builder) -> Written<bool> {
    let ship = Ship::create(builder, plain_ship("Bo", Kind::Car))?;
    let line = Owner::from_firm(Company::create(builder, the_line())?);
    let port = PortFields {
        owner: line,
        ships: &[ship],
        berths: &["north", "south"],
        shares: &[line, line],
        soundings: &[0, u16::MAX],
        chart: ByteList(&[9, 8]),
        gauge: Some(GAUGE),
        hoisted: Signal::Zulu,
    };
    let port = Port::create(builder, port)?;
    let bytes = builder.finish(port, Some(*b"PORT"))?;
    Ok(is_port(bytes) && planus::has_identifier(bytes, *b"PORT") && !has_identifier(bytes))
}

fn start(builder: &mut Builder, origin: Offset<Origin>) -> Written<Offset<Entry>>
    requires { IsIn builder.old origin }
    ensures reached { IfOk result (λ offset. IsIn builder.new offset) }
    ensures grows { Grows builder.old builder.new }
{
    let entry = EntryFields {
        at: 0,
        text: "start",
        origin,
        cause: None,
        parents: None,
    };
    Entry::create(builder, entry)
}

fn is_host(origin: &OriginRef<'_>) -> bool {
    matches!(origin.host(), Ok(Some("web1"))) && matches!(origin.port(), Ok(8080))
}

fn is_start(entry: &EntryRef<'_>) -> bool {
    matches!(entry.text(), Ok("start"))
        && matches!(entry.at(), Ok(0))
        && matches!(entry.cause(), Ok(None))
        && matches!(entry.parents(), Ok(None))
}

fn refers_to_others(entry: &EntryRef<'_>) -> bool {
    let parent = match entry.parents() {
        Ok(Some(parents)) if parents.len() == 1 => parents.get(0),
        _ => None,
    };
    matches!(entry.origin(), Ok(origin) if is_host(&origin))
        && matches!(entry.cause(), Ok(Some(CauseRef::Entry(cause))) if is_start(&cause))
        && matches!(parent, Some(Ok(parent)) if is_start(&parent))
}

fn is_full(bytes: &[u8]) -> bool {
    let entry: planus::Result<EntryRef<'_>> = read_root(bytes);
    let Ok(entry) = entry else {
        return false;
    };
    matches!(entry.text(), Ok("disk full"))
        && matches!(entry.at(), Ok(1_700_000_000))
        && refers_to_others(&entry)
}

pub fn writes_entry(builder: &mut Builder) -> Written<bool> {
    let host = OriginFields {
        host: Some("web1"),
        port: 8080,
    };
    let origin = Origin::create(builder, host)?;
    let start = start(builder, origin)?;
    let entry = EntryFields {
        at: 1_700_000_000,
        text: "disk full",
        origin,
        cause: Some(Cause::from_entry(start)),
        parents: Some(&[start]),
    };
    let entry = Entry::create(builder, entry)?;
    Ok(is_full(builder.finish(entry, None)?))
}
