//! Calls over tables `Ship`.

ghost use Rattle.std.specs.Prelude.{codes, pos, negsuc, true, false};
ghost use Rattle.planus.specs.Printed.{of_bits, binary32, u8_shape, u16_shape, u32_shape};
ghost use Rattle.planus.specs.Printed.{i8_shape, i16_shape, i32_shape, i64_shape, bool_shape};
ghost use Rattle.planus.specs.Printed.{f32_shape, f64_shape, IsPlainRequired, IsPlainField};
ghost use Rattle.planus.specs.Printed.{IsPlainFieldOr, plains, judged, texts, tables};
ghost use Rattle.harbour.specs.Fix.{fix_shape};
ghost use Rattle.harbour.specs.Kind.{kind_shape};
ghost use Rattle.harbour.specs.declared.kind.Kind.TheVariants as kind_value;
ghost use Rattle.harbour.specs.Level.{level_shape};
ghost use Rattle.harbour.specs.declared.level.Level.TheVariants as level_value;
ghost use Rattle.harbour.specs.Needs.{needs_shape};
ghost use Rattle.harbour.specs.Pos.{pos_shape};
ghost use Rattle.harbour.specs.declared.ship.Ship.{Ship};
ghost use Rattle.planus_foreign.specs.Calls as call;
ghost use Rattle.planus_foreign.specs.Places as place;

/// Its name.
#[unsafe(no_mangle)]
pub extern "C" fn harbour_ship_name(
    buffer: &[u8],
    table: usize,
    out: &mut planus_foreign::Span,
) -> u32
    ensures { call.Reads (λ t. place.IsTextSpanRequired t 0 (codes "Ship") (codes "name"))
        call.Value buffer.now table out.old out.new result }
{
    planus_foreign::read_text(buffer, table, 0, "Ship", "name", out)
}

/// Stores `hull`.
#[unsafe(no_mangle)]
pub extern "C" fn harbour_ship_hull(buffer: &[u8], table: usize, out: &mut u16) -> u32
    ensures { call.Reads (λ t. IsPlainFieldOr u16_shape 100 t 1 (codes "Ship") (codes "hull"))
        call.Value buffer.now table out.old out.new result }
{
    planus_foreign::read_value_or(buffer, table, 1, 100, "Ship", "hull", out)
}

/// Stores `cargo`.
#[unsafe(no_mangle)]
pub extern "C" fn harbour_ship_cargo(
    buffer: &[u8],
    table: usize,
    out: &mut planus_foreign::Span,
) -> u32
    ensures { call.Reads (λ t. place.IsField (plains u32_shape) t 2 (codes "Ship") (codes "cargo"))
        place.ItemsIf buffer.now table out.old out.new result }
{
    planus_foreign::read_items_if::<u32>(buffer, table, 2, "Ship", "cargo", out)
}

/// Stores `kind`.
#[unsafe(no_mangle)]
pub extern "C" fn harbour_ship_kind(buffer: &[u8], table: usize, out: &mut [u8; 1]) -> u32
    ensures { call.Reads
        (λ t. IsPlainFieldOr kind_shape kind_value.Bike t 3 (codes "Ship") (codes "kind"))
        (call.Bytes kind_shape) buffer.now table out.old out.new result }
{
    planus_foreign::read_bytes_or::<harbour::Kind, 1>(
        buffer,
        table,
        3,
        harbour::Kind::Bike,
        "Ship",
        "kind",
        out,
    )
}

/// Stores `level`.
#[unsafe(no_mangle)]
pub extern "C" fn harbour_ship_level(buffer: &[u8], table: usize, out: &mut [u8; 2]) -> u32
    ensures { call.Reads
        (λ t. IsPlainFieldOr level_shape level_value.Mid t 4 (codes "Ship") (codes "level"))
        (call.Bytes level_shape) buffer.now table out.old out.new result }
{
    planus_foreign::read_bytes_or::<harbour::Level, 2>(
        buffer,
        table,
        4,
        harbour::Level::Mid,
        "Ship",
        "level",
        out,
    )
}

/// Stores `needs`.
#[unsafe(no_mangle)]
pub extern "C" fn harbour_ship_needs(buffer: &[u8], table: usize, out: &mut [u8; 2]) -> u32
    ensures { call.Reads
        (λ t. IsPlainFieldOr needs_shape (record { bits = 1 }) t 5 (codes "Ship") (codes "needs"))
        (call.Bytes needs_shape) buffer.now table out.old out.new result }
{
    planus_foreign::read_bytes_or::<harbour::Needs, 2>(
        buffer,
        table,
        5,
        harbour::Needs { bits: 1 },
        "Ship",
        "needs",
        out,
    )
}

/// Stores `home`.
#[unsafe(no_mangle)]
pub extern "C" fn harbour_ship_home(buffer: &[u8], table: usize, out: &mut [u8; 12]) -> u32
    ensures { call.Reads (λ t. IsPlainField pos_shape t 6 (codes "Ship") (codes "home"))
        (call.BytesIf pos_shape) buffer.now table out.old out.new result }
{
    planus_foreign::read_bytes_if::<harbour::Pos, 12>(buffer, table, 6, "Ship", "home", out)
}

/// Stores `track`.
#[unsafe(no_mangle)]
pub extern "C" fn harbour_ship_track(
    buffer: &[u8],
    table: usize,
    out: &mut planus_foreign::Span,
) -> u32
    ensures { call.Reads (λ t. place.IsField (plains pos_shape) t 7 (codes "Ship") (codes "track"))
        place.ItemsIf buffer.now table out.old out.new result }
{
    planus_foreign::read_items_if::<harbour::Pos>(buffer, table, 7, "Ship", "track", out)
}

/// Stores `heat`.
#[unsafe(no_mangle)]
pub extern "C" fn harbour_ship_heat(buffer: &[u8], table: usize, out: &mut f32) -> u32
    ensures { call.Reads
        (λ t. IsPlainFieldOr f32_shape (of_bits binary32 1069547520) t 8 (codes "Ship") (codes "heat"))
        call.Value buffer.now table out.old out.new result }
{
    planus_foreign::read_value_or(buffer, table, 8, 1.5, "Ship", "heat", out)
}

/// Stores `depth`.
#[unsafe(no_mangle)]
pub extern "C" fn harbour_ship_depth(buffer: &[u8], table: usize, out: &mut i16) -> u32
    ensures { call.Reads
        (λ t. IsPlainFieldOr i16_shape (negsuc 4) t 9 (codes "Ship") (codes "depth")) call.Value
        buffer.now table out.old out.new result }
{
    planus_foreign::read_value_or(buffer, table, 9, -5, "Ship", "depth", out)
}

/// Stores `open`.
#[unsafe(no_mangle)]
pub extern "C" fn harbour_ship_open(buffer: &[u8], table: usize, out: &mut [u8; 1]) -> u32
    ensures { call.Reads (λ t. IsPlainFieldOr bool_shape true t 10 (codes "Ship") (codes "open"))
        (call.Bytes bool_shape) buffer.now table out.old out.new result }
{
    planus_foreign::read_bytes_or::<bool, 1>(buffer, table, 10, true, "Ship", "open", out)
}

/// Stores `shut`.
#[unsafe(no_mangle)]
pub extern "C" fn harbour_ship_shut(buffer: &[u8], table: usize, out: &mut [u8; 1]) -> u32
    ensures { call.Reads (λ t. IsPlainFieldOr bool_shape false t 11 (codes "Ship") (codes "shut"))
        (call.Bytes bool_shape) buffer.now table out.old out.new result }
{
    planus_foreign::read_bytes_or::<bool, 1>(buffer, table, 11, false, "Ship", "shut", out)
}

/// Stores `maybe`.
#[unsafe(no_mangle)]
pub extern "C" fn harbour_ship_maybe(buffer: &[u8], table: usize, out: &mut i32) -> u32
    ensures { call.Reads (λ t. IsPlainField i32_shape t 12 (codes "Ship") (codes "maybe"))
        call.ValueIf buffer.now table out.old out.new result }
{
    planus_foreign::read_value_if(buffer, table, 12, "Ship", "maybe", out)
}

/// Stores `photo`.
#[unsafe(no_mangle)]
pub extern "C" fn harbour_ship_photo(
    buffer: &[u8],
    table: usize,
    out: &mut planus_foreign::Span,
) -> u32
    ensures { call.Reads (λ t. place.IsField (plains u8_shape) t 13 (codes "Ship") (codes "photo"))
        place.ItemsIf buffer.now table out.old out.new result }
{
    planus_foreign::read_items_if::<u8>(buffer, table, 13, "Ship", "photo", out)
}

/// Stores `names`.
#[unsafe(no_mangle)]
pub extern "C" fn harbour_ship_names(
    buffer: &[u8],
    table: usize,
    out: &mut planus_foreign::Span,
) -> u32
    ensures { call.Reads (λ t. place.IsField texts t 14 (codes "Ship") (codes "names"))
        place.ItemsIf buffer.now table out.old out.new result }
{
    planus_foreign::read_texts_if(buffer, table, 14, "Ship", "names", out)
}

/// Stores `mate`.
#[unsafe(no_mangle)]
pub extern "C" fn harbour_ship_mate(buffer: &[u8], table: usize, out: &mut usize) -> u32
    ensures { call.Reads (λ t. place.IsPositionField t 15 (codes "Ship") (codes "mate"))
        (place.TablePositionIf buffer.now) buffer.now table out.old out.new result }
{
    planus_foreign::read_table_if(buffer, table, 15, "Ship", "mate", out)
}

/// Stores `consorts`.
#[unsafe(no_mangle)]
pub extern "C" fn harbour_ship_consorts(
    buffer: &[u8],
    table: usize,
    out: &mut planus_foreign::Span,
) -> u32
    ensures { call.Reads (λ t. place.IsField (tables Ship) t 16 (codes "Ship") (codes "consorts"))
        place.ItemsIf buffer.now table out.old out.new result }
{
    planus_foreign::read_tables_if::<harbour::Ship>(buffer, table, 16, "Ship", "consorts", out)
}

/// Stores `kinds`.
#[unsafe(no_mangle)]
pub extern "C" fn harbour_ship_kinds(
    buffer: &[u8],
    table: usize,
    out: &mut planus_foreign::Span,
) -> u32
    ensures { call.Reads
        (λ t. place.IsField (judged kind_shape) t 17 (codes "Ship") (codes "kinds")) place.ItemsIf
        buffer.now table out.old out.new result }
{
    planus_foreign::read_items_if::<planus::Result<harbour::Kind>>(
        buffer, table, 17, "Ship", "kinds", out,
    )
}

/// Stores `owner`.
#[unsafe(no_mangle)]
pub extern "C" fn harbour_ship_owner(
    buffer: &[u8],
    table: usize,
    out: &mut planus_foreign::Member,
) -> u32
    ensures { call.Reads (λ t. place.IsMemberField t 18 (codes "Ship") (codes "owner"))
        call.ValueIf buffer.now table out.old out.new result }
{
    planus_foreign::read_union_if(buffer, table, 18, "Ship", "owner", out)
}

/// Stores `shares`.
#[unsafe(no_mangle)]
pub extern "C" fn harbour_ship_shares(
    buffer: &[u8],
    table: usize,
    index: usize,
    out: &mut planus_foreign::Member,
) -> u32
    ensures { call.Reads (λ t. place.IsMembers t 20 (codes "Ship") (codes "shares"))
        (place.MemberItemIf index) buffer.now table out.old out.new result }
{
    planus_foreign::read_union_item(buffer, table, 20, index, "Ship", "shares", out)
}

/// Stores `tall`.
#[unsafe(no_mangle)]
pub extern "C" fn harbour_ship_tall(buffer: &[u8], table: usize, out: &mut i64) -> u32
    ensures { call.Reads (λ t. IsPlainFieldOr i64_shape (pos 0) t 23 (codes "Ship") (codes "tall"))
        call.Value buffer.now table out.old out.new result }
{
    planus_foreign::read_value_or(buffer, table, 23, 0, "Ship", "tall", out)
}

/// Stores `temps`.
#[unsafe(no_mangle)]
pub extern "C" fn harbour_ship_temps(
    buffer: &[u8],
    table: usize,
    out: &mut planus_foreign::Span,
) -> u32
    ensures { call.Reads
        (λ t. place.IsField (plains f64_shape) t 24 (codes "Ship") (codes "temps")) place.ItemsIf
        buffer.now table out.old out.new result }
{
    planus_foreign::read_items_if::<f64>(buffer, table, 24, "Ship", "temps", out)
}

/// Stores `deltas`.
#[unsafe(no_mangle)]
pub extern "C" fn harbour_ship_deltas(
    buffer: &[u8],
    table: usize,
    out: &mut planus_foreign::Span,
) -> u32
    ensures { call.Reads
        (λ t. place.IsField (plains i8_shape) t 25 (codes "Ship") (codes "deltas")) place.ItemsIf
        buffer.now table out.old out.new result }
{
    planus_foreign::read_items_if::<i8>(buffer, table, 25, "Ship", "deltas", out)
}

/// Stores `fix`.
#[unsafe(no_mangle)]
pub extern "C" fn harbour_ship_fix(buffer: &[u8], table: usize, out: &mut [u8; 24]) -> u32
    ensures { call.Reads (λ t. IsPlainRequired fix_shape t 26 (codes "Ship") (codes "fix"))
        (call.Bytes fix_shape) buffer.now table out.old out.new result }
{
    planus_foreign::read_bytes::<harbour::Fix, 24>(buffer, table, 26, "Ship", "fix", out)
}

/// Stores `which`.
#[unsafe(no_mangle)]
pub extern "C" fn harbour_ship_which(buffer: &[u8], table: usize, out: &mut [u8; 1]) -> u32
    ensures { call.Reads (λ t. IsPlainField kind_shape t 27 (codes "Ship") (codes "which"))
        (call.BytesIf kind_shape) buffer.now table out.old out.new result }
{
    planus_foreign::read_bytes_if::<harbour::Kind, 1>(buffer, table, 27, "Ship", "which", out)
}

/// Stores `flags`.
#[unsafe(no_mangle)]
pub extern "C" fn harbour_ship_flags(
    buffer: &[u8],
    table: usize,
    out: &mut planus_foreign::Span,
) -> u32
    ensures { call.Reads
        (λ t. place.IsField (plains bool_shape) t 28 (codes "Ship") (codes "flags")) place.ItemsIf
        buffer.now table out.old out.new result }
{
    planus_foreign::read_items_if::<bool>(buffer, table, 28, "Ship", "flags", out)
}
