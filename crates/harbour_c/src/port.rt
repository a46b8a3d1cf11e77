//! Calls over tables `Port`.

ghost use Rattle.std.specs.Prelude.{codes};
ghost use Rattle.planus.specs.Printed.{u8_shape, u16_shape, IsPlainField, IsPlainFieldOr, plains};
ghost use Rattle.planus.specs.Printed.{texts, tables};
ghost use Rattle.harbour.specs.Gauge.{gauge_shape};
ghost use Rattle.harbour.specs.declared.ship.Ship.{Ship};
ghost use Rattle.harbour.specs.Signal.{signal_shape};
ghost use Rattle.harbour.specs.declared.signal.Signal.TheVariants as signal_value;
ghost use Rattle.planus_foreign.specs.Calls as call;
ghost use Rattle.planus_foreign.specs.Places as place;

/// Stores `owner`.
#[unsafe(no_mangle)]
pub extern "C" fn harbour_port_owner(
    buffer: &[u8],
    table: usize,
    out: &mut planus_foreign::Member,
) -> u32
    ensures { call.Reads (λ t. place.IsMemberRequired t 0 (codes "Port") (codes "owner"))
        call.Value buffer.now table out.old out.new result }
{
    planus_foreign::read_union(buffer, table, 0, "Port", "owner", out)
}

/// Stores `ships`.
#[unsafe(no_mangle)]
pub extern "C" fn harbour_port_ships(
    buffer: &[u8],
    table: usize,
    out: &mut planus_foreign::Span,
) -> u32
    ensures { call.Reads (λ t. place.IsRequired (tables Ship) t 2 (codes "Port") (codes "ships"))
        place.Items buffer.now table out.old out.new result }
{
    planus_foreign::read_tables::<harbour::Ship>(buffer, table, 2, "Port", "ships", out)
}

/// Stores `berths`.
#[unsafe(no_mangle)]
pub extern "C" fn harbour_port_berths(
    buffer: &[u8],
    table: usize,
    out: &mut planus_foreign::Span,
) -> u32
    ensures { call.Reads (λ t. place.IsRequired texts t 3 (codes "Port") (codes "berths"))
        place.Items buffer.now table out.old out.new result }
{
    planus_foreign::read_texts(buffer, table, 3, "Port", "berths", out)
}

/// Stores `shares`.
#[unsafe(no_mangle)]
pub extern "C" fn harbour_port_shares(
    buffer: &[u8],
    table: usize,
    index: usize,
    out: &mut planus_foreign::Member,
) -> u32
    ensures { call.Reads (λ t. place.IsMembers t 4 (codes "Port") (codes "shares"))
        (place.MemberItemIf index) buffer.now table out.old out.new result }
{
    planus_foreign::read_union_item(buffer, table, 4, index, "Port", "shares", out)
}

/// Stores `soundings`.
#[unsafe(no_mangle)]
pub extern "C" fn harbour_port_soundings(
    buffer: &[u8],
    table: usize,
    out: &mut planus_foreign::Span,
) -> u32
    ensures { call.Reads
        (λ t. place.IsRequired (plains u16_shape) t 6 (codes "Port") (codes "soundings"))
        place.Items buffer.now table out.old out.new result }
{
    planus_foreign::read_items::<u16>(buffer, table, 6, "Port", "soundings", out)
}

/// Stores `chart`.
#[unsafe(no_mangle)]
pub extern "C" fn harbour_port_chart(
    buffer: &[u8],
    table: usize,
    out: &mut planus_foreign::Span,
) -> u32
    ensures { call.Reads
        (λ t. place.IsRequired (plains u8_shape) t 7 (codes "Port") (codes "chart")) place.Items
        buffer.now table out.old out.new result }
{
    planus_foreign::read_items::<u8>(buffer, table, 7, "Port", "chart", out)
}

/// Stores `gauge`.
#[unsafe(no_mangle)]
pub extern "C" fn harbour_port_gauge(buffer: &[u8], table: usize, out: &mut [u8; 8]) -> u32
    ensures { call.Reads (λ t. IsPlainField gauge_shape t 8 (codes "Port") (codes "gauge"))
        (call.BytesIf gauge_shape) buffer.now table out.old out.new result }
{
    planus_foreign::read_bytes_if::<harbour::Gauge, 8>(buffer, table, 8, "Port", "gauge", out)
}

/// What it hoists.
#[unsafe(no_mangle)]
pub extern "C" fn harbour_port_hoisted(buffer: &[u8], table: usize, out: &mut [u8; 1]) -> u32
    ensures { call.Reads
        (λ t. IsPlainFieldOr signal_shape signal_value.Quebec t 9 (codes "Port") (codes "hoisted"))
        (call.Bytes signal_shape) buffer.now table out.old out.new result }
{
    planus_foreign::read_bytes_or::<harbour::Signal, 1>(
        buffer,
        table,
        9,
        harbour::Signal::Quebec,
        "Port",
        "hoisted",
        out,
    )
}
