//! Calls over tables `Manifest`.

ghost use Rattle.std.specs.Prelude.{codes, negsuc, true, false};
ghost use Rattle.planus.specs.Printed.{of_bits, binary32, binary64, u8_shape, u16_shape};
ghost use Rattle.planus.specs.Printed.{u32_shape, u64_shape, i8_shape, i16_shape, i32_shape};
ghost use Rattle.planus.specs.Printed.{i64_shape, bool_shape, f32_shape, f64_shape};
ghost use Rattle.planus.specs.Printed.{IsPlainRequired, IsPlainField, IsPlainFieldOr, plains};
ghost use Rattle.planus.specs.Printed.{judged, texts, tables};
ghost use Rattle.harbour.specs.Gauge.{gauge_shape};
ghost use Rattle.harbour.specs.Kind.{kind_shape};
ghost use Rattle.harbour.specs.declared.kind.Kind.TheVariants as kind_value;
ghost use Rattle.harbour.specs.Level.{level_shape};
ghost use Rattle.harbour.specs.declared.level.Level.TheVariants as level_value;
ghost use Rattle.harbour.specs.declared.manifest.Manifest.{Manifest};
ghost use Rattle.harbour.specs.Needs.{needs_shape};
ghost use Rattle.harbour.specs.declared.person.Person.{Person};
ghost use Rattle.harbour.specs.Pos.{pos_shape};
ghost use Rattle.harbour.specs.Signal.{signal_shape};
ghost use Rattle.harbour.specs.declared.signal.Signal.TheVariants as signal_value;
ghost use Rattle.planus_foreign.specs.Calls as call;
ghost use Rattle.planus_foreign.specs.Places as place;

/// Stores `number`.
#[unsafe(no_mangle)]
pub extern "C" fn harbour_manifest_number(buffer: &[u8], table: usize, out: &mut u64) -> u32
    ensures { call.Reads (λ t. IsPlainFieldOr u64_shape 1 t 0 (codes "Manifest") (codes "number"))
        call.Value buffer.now table out.old out.new result }
{
    planus_foreign::read_value_or(buffer, table, 0, 1, "Manifest", "number", out)
}

/// Stores `issued`.
#[unsafe(no_mangle)]
pub extern "C" fn harbour_manifest_issued(buffer: &[u8], table: usize, out: &mut i64) -> u32
    ensures { call.Reads
        (λ t. IsPlainFieldOr i64_shape (negsuc 0) t 1 (codes "Manifest") (codes "issued"))
        call.Value buffer.now table out.old out.new result }
{
    planus_foreign::read_value_or(buffer, table, 1, -1, "Manifest", "issued", out)
}

/// Stores `weight`.
#[unsafe(no_mangle)]
pub extern "C" fn harbour_manifest_weight(buffer: &[u8], table: usize, out: &mut f64) -> u32
    ensures { call.Reads
        (λ t. IsPlainFieldOr f64_shape (of_bits binary64 4602678819172646912) t 2 (codes "Manifest") (codes "weight"))
        call.Value buffer.now table out.old out.new result }
{
    planus_foreign::read_value_or(buffer, table, 2, 0.5, "Manifest", "weight", out)
}

/// Stores `worth`.
#[unsafe(no_mangle)]
pub extern "C" fn harbour_manifest_worth(buffer: &[u8], table: usize, out: &mut f32) -> u32
    ensures { call.Reads
        (λ t. IsPlainFieldOr f32_shape (of_bits binary32 0) t 3 (codes "Manifest") (codes "worth"))
        call.Value buffer.now table out.old out.new result }
{
    planus_foreign::read_value_or(buffer, table, 3, 0.0, "Manifest", "worth", out)
}

/// Stores `boxes`.
#[unsafe(no_mangle)]
pub extern "C" fn harbour_manifest_boxes(buffer: &[u8], table: usize, out: &mut u32) -> u32
    ensures { call.Reads (λ t. IsPlainFieldOr u32_shape 12 t 4 (codes "Manifest") (codes "boxes"))
        call.Value buffer.now table out.old out.new result }
{
    planus_foreign::read_value_or(buffer, table, 4, 12, "Manifest", "boxes", out)
}

/// Stores `debt`.
#[unsafe(no_mangle)]
pub extern "C" fn harbour_manifest_debt(buffer: &[u8], table: usize, out: &mut i32) -> u32
    ensures { call.Reads
        (λ t. IsPlainFieldOr i32_shape (negsuc 6) t 5 (codes "Manifest") (codes "debt")) call.Value
        buffer.now table out.old out.new result }
{
    planus_foreign::read_value_or(buffer, table, 5, -7, "Manifest", "debt", out)
}

/// Stores `pages`.
#[unsafe(no_mangle)]
pub extern "C" fn harbour_manifest_pages(buffer: &[u8], table: usize, out: &mut u16) -> u32
    ensures { call.Reads (λ t. IsPlainFieldOr u16_shape 3 t 6 (codes "Manifest") (codes "pages"))
        call.Value buffer.now table out.old out.new result }
{
    planus_foreign::read_value_or(buffer, table, 6, 3, "Manifest", "pages", out)
}

/// Stores `shift`.
#[unsafe(no_mangle)]
pub extern "C" fn harbour_manifest_shift(buffer: &[u8], table: usize, out: &mut i16) -> u32
    ensures { call.Reads
        (λ t. IsPlainFieldOr i16_shape (negsuc 1) t 7 (codes "Manifest") (codes "shift"))
        call.Value buffer.now table out.old out.new result }
{
    planus_foreign::read_value_or(buffer, table, 7, -2, "Manifest", "shift", out)
}

/// Stores `tier`.
#[unsafe(no_mangle)]
pub extern "C" fn harbour_manifest_tier(buffer: &[u8], table: usize, out: &mut u8) -> u32
    ensures { call.Reads (λ t. IsPlainFieldOr u8_shape 1 t 8 (codes "Manifest") (codes "tier"))
        call.Value buffer.now table out.old out.new result }
{
    planus_foreign::read_value_or(buffer, table, 8, 1, "Manifest", "tier", out)
}

/// Stores `lean`.
#[unsafe(no_mangle)]
pub extern "C" fn harbour_manifest_lean(buffer: &[u8], table: usize, out: &mut i8) -> u32
    ensures { call.Reads
        (λ t. IsPlainFieldOr i8_shape (negsuc 0) t 9 (codes "Manifest") (codes "lean")) call.Value
        buffer.now table out.old out.new result }
{
    planus_foreign::read_value_or(buffer, table, 9, -1, "Manifest", "lean", out)
}

/// Stores `sealed`.
#[unsafe(no_mangle)]
pub extern "C" fn harbour_manifest_sealed(buffer: &[u8], table: usize, out: &mut [u8; 1]) -> u32
    ensures { call.Reads
        (λ t. IsPlainFieldOr bool_shape true t 10 (codes "Manifest") (codes "sealed"))
        (call.Bytes bool_shape) buffer.now table out.old out.new result }
{
    planus_foreign::read_bytes_or::<bool, 1>(buffer, table, 10, true, "Manifest", "sealed", out)
}

/// Stores `opened`.
#[unsafe(no_mangle)]
pub extern "C" fn harbour_manifest_opened(buffer: &[u8], table: usize, out: &mut [u8; 1]) -> u32
    ensures { call.Reads
        (λ t. IsPlainFieldOr bool_shape false t 11 (codes "Manifest") (codes "opened"))
        (call.Bytes bool_shape) buffer.now table out.old out.new result }
{
    planus_foreign::read_bytes_or::<bool, 1>(buffer, table, 11, false, "Manifest", "opened", out)
}

/// Stores `kind`.
#[unsafe(no_mangle)]
pub extern "C" fn harbour_manifest_kind(buffer: &[u8], table: usize, out: &mut [u8; 1]) -> u32
    ensures { call.Reads
        (λ t. IsPlainFieldOr kind_shape kind_value.Car t 12 (codes "Manifest") (codes "kind"))
        (call.Bytes kind_shape) buffer.now table out.old out.new result }
{
    planus_foreign::read_bytes_or::<harbour::Kind, 1>(
        buffer,
        table,
        12,
        harbour::Kind::Car,
        "Manifest",
        "kind",
        out,
    )
}

/// Stores `level`.
#[unsafe(no_mangle)]
pub extern "C" fn harbour_manifest_level(buffer: &[u8], table: usize, out: &mut [u8; 2]) -> u32
    ensures { call.Reads
        (λ t. IsPlainFieldOr level_shape level_value.High t 13 (codes "Manifest") (codes "level"))
        (call.Bytes level_shape) buffer.now table out.old out.new result }
{
    planus_foreign::read_bytes_or::<harbour::Level, 2>(
        buffer,
        table,
        13,
        harbour::Level::High,
        "Manifest",
        "level",
        out,
    )
}

/// Stores `needs`.
#[unsafe(no_mangle)]
pub extern "C" fn harbour_manifest_needs(buffer: &[u8], table: usize, out: &mut [u8; 2]) -> u32
    ensures { call.Reads
        (λ t. IsPlainFieldOr needs_shape (record { bits = 2 }) t 14 (codes "Manifest") (codes "needs"))
        (call.Bytes needs_shape) buffer.now table out.old out.new result }
{
    planus_foreign::read_bytes_or::<harbour::Needs, 2>(
        buffer,
        table,
        14,
        harbour::Needs { bits: 2 },
        "Manifest",
        "needs",
        out,
    )
}

/// Stores `signal`.
#[unsafe(no_mangle)]
pub extern "C" fn harbour_manifest_signal(buffer: &[u8], table: usize, out: &mut [u8; 1]) -> u32
    ensures { call.Reads
        (λ t. IsPlainFieldOr signal_shape signal_value.Alfa t 15 (codes "Manifest") (codes "signal"))
        (call.Bytes signal_shape) buffer.now table out.old out.new result }
{
    planus_foreign::read_bytes_or::<harbour::Signal, 1>(
        buffer,
        table,
        15,
        harbour::Signal::Alfa,
        "Manifest",
        "signal",
        out,
    )
}

/// Stores `rank`.
#[unsafe(no_mangle)]
pub extern "C" fn harbour_manifest_rank(buffer: &[u8], table: usize, out: &mut u64) -> u32
    ensures { call.Reads (λ t. IsPlainField u64_shape t 16 (codes "Manifest") (codes "rank"))
        call.ValueIf buffer.now table out.old out.new result }
{
    planus_foreign::read_value_if(buffer, table, 16, "Manifest", "rank", out)
}

/// Stores `margin`.
#[unsafe(no_mangle)]
pub extern "C" fn harbour_manifest_margin(buffer: &[u8], table: usize, out: &mut f64) -> u32
    ensures { call.Reads (λ t. IsPlainField f64_shape t 17 (codes "Manifest") (codes "margin"))
        call.ValueIf buffer.now table out.old out.new result }
{
    planus_foreign::read_value_if(buffer, table, 17, "Manifest", "margin", out)
}

/// Stores `dues`.
#[unsafe(no_mangle)]
pub extern "C" fn harbour_manifest_dues(buffer: &[u8], table: usize, out: &mut i32) -> u32
    ensures { call.Reads (λ t. IsPlainField i32_shape t 18 (codes "Manifest") (codes "dues"))
        call.ValueIf buffer.now table out.old out.new result }
{
    planus_foreign::read_value_if(buffer, table, 18, "Manifest", "dues", out)
}

/// Stores `paid`.
#[unsafe(no_mangle)]
pub extern "C" fn harbour_manifest_paid(buffer: &[u8], table: usize, out: &mut [u8; 1]) -> u32
    ensures { call.Reads (λ t. IsPlainField bool_shape t 19 (codes "Manifest") (codes "paid"))
        (call.BytesIf bool_shape) buffer.now table out.old out.new result }
{
    planus_foreign::read_bytes_if::<bool, 1>(buffer, table, 19, "Manifest", "paid", out)
}

/// Stores `grade`.
#[unsafe(no_mangle)]
pub extern "C" fn harbour_manifest_grade(buffer: &[u8], table: usize, out: &mut [u8; 1]) -> u32
    ensures { call.Reads (λ t. IsPlainField kind_shape t 20 (codes "Manifest") (codes "grade"))
        (call.BytesIf kind_shape) buffer.now table out.old out.new result }
{
    planus_foreign::read_bytes_if::<harbour::Kind, 1>(buffer, table, 20, "Manifest", "grade", out)
}

/// Stores `berth`.
#[unsafe(no_mangle)]
pub extern "C" fn harbour_manifest_berth(buffer: &[u8], table: usize, out: &mut [u8; 12]) -> u32
    ensures { call.Reads (λ t. IsPlainField pos_shape t 21 (codes "Manifest") (codes "berth"))
        (call.BytesIf pos_shape) buffer.now table out.old out.new result }
{
    planus_foreign::read_bytes_if::<harbour::Pos, 12>(buffer, table, 21, "Manifest", "berth", out)
}

/// Stores `gauge`.
#[unsafe(no_mangle)]
pub extern "C" fn harbour_manifest_gauge(buffer: &[u8], table: usize, out: &mut [u8; 8]) -> u32
    ensures { call.Reads (λ t. IsPlainRequired gauge_shape t 22 (codes "Manifest") (codes "gauge"))
        (call.Bytes gauge_shape) buffer.now table out.old out.new result }
{
    planus_foreign::read_bytes::<harbour::Gauge, 8>(buffer, table, 22, "Manifest", "gauge", out)
}

/// Stores `title`.
#[unsafe(no_mangle)]
pub extern "C" fn harbour_manifest_title(
    buffer: &[u8],
    table: usize,
    out: &mut planus_foreign::Span,
) -> u32
    ensures { call.Reads (λ t. place.IsTextSpanRequired t 23 (codes "Manifest") (codes "title"))
        call.Value buffer.now table out.old out.new result }
{
    planus_foreign::read_text(buffer, table, 23, "Manifest", "title", out)
}

/// Stores `note`.
#[unsafe(no_mangle)]
pub extern "C" fn harbour_manifest_note(
    buffer: &[u8],
    table: usize,
    out: &mut planus_foreign::Span,
) -> u32
    ensures { call.Reads (λ t. place.IsTextSpanField t 24 (codes "Manifest") (codes "note"))
        call.ValueIf buffer.now table out.old out.new result }
{
    planus_foreign::read_text_if(buffer, table, 24, "Manifest", "note", out)
}

/// Stores `scan`.
#[unsafe(no_mangle)]
pub extern "C" fn harbour_manifest_scan(
    buffer: &[u8],
    table: usize,
    out: &mut planus_foreign::Span,
) -> u32
    ensures { call.Reads
        (λ t. place.IsField (plains u8_shape) t 25 (codes "Manifest") (codes "scan")) place.ItemsIf
        buffer.now table out.old out.new result }
{
    planus_foreign::read_items_if::<u8>(buffer, table, 25, "Manifest", "scan", out)
}

/// Stores `stamp`.
#[unsafe(no_mangle)]
pub extern "C" fn harbour_manifest_stamp(
    buffer: &[u8],
    table: usize,
    out: &mut planus_foreign::Span,
) -> u32
    ensures { call.Reads
        (λ t. place.IsRequired (plains u8_shape) t 26 (codes "Manifest") (codes "stamp"))
        place.Items buffer.now table out.old out.new result }
{
    planus_foreign::read_items::<u8>(buffer, table, 26, "Manifest", "stamp", out)
}

/// Stores `weights`.
#[unsafe(no_mangle)]
pub extern "C" fn harbour_manifest_weights(
    buffer: &[u8],
    table: usize,
    out: &mut planus_foreign::Span,
) -> u32
    ensures { call.Reads
        (λ t. place.IsField (plains f64_shape) t 27 (codes "Manifest") (codes "weights"))
        place.ItemsIf buffer.now table out.old out.new result }
{
    planus_foreign::read_items_if::<f64>(buffer, table, 27, "Manifest", "weights", out)
}

/// Stores `counts`.
#[unsafe(no_mangle)]
pub extern "C" fn harbour_manifest_counts(
    buffer: &[u8],
    table: usize,
    out: &mut planus_foreign::Span,
) -> u32
    ensures { call.Reads
        (λ t. place.IsRequired (plains u32_shape) t 28 (codes "Manifest") (codes "counts"))
        place.Items buffer.now table out.old out.new result }
{
    planus_foreign::read_items::<u32>(buffer, table, 28, "Manifest", "counts", out)
}

/// Stores `offsets`.
#[unsafe(no_mangle)]
pub extern "C" fn harbour_manifest_offsets(
    buffer: &[u8],
    table: usize,
    out: &mut planus_foreign::Span,
) -> u32
    ensures { call.Reads
        (λ t. place.IsField (plains i16_shape) t 29 (codes "Manifest") (codes "offsets"))
        place.ItemsIf buffer.now table out.old out.new result }
{
    planus_foreign::read_items_if::<i16>(buffer, table, 29, "Manifest", "offsets", out)
}

/// Stores `marks`.
#[unsafe(no_mangle)]
pub extern "C" fn harbour_manifest_marks(
    buffer: &[u8],
    table: usize,
    out: &mut planus_foreign::Span,
) -> u32
    ensures { call.Reads
        (λ t. place.IsField (plains bool_shape) t 30 (codes "Manifest") (codes "marks"))
        place.ItemsIf buffer.now table out.old out.new result }
{
    planus_foreign::read_items_if::<bool>(buffer, table, 30, "Manifest", "marks", out)
}

/// Stores `kinds`.
#[unsafe(no_mangle)]
pub extern "C" fn harbour_manifest_kinds(
    buffer: &[u8],
    table: usize,
    out: &mut planus_foreign::Span,
) -> u32
    ensures { call.Reads
        (λ t. place.IsField (judged kind_shape) t 31 (codes "Manifest") (codes "kinds"))
        place.ItemsIf buffer.now table out.old out.new result }
{
    planus_foreign::read_items_if::<planus::Result<harbour::Kind>>(
        buffer, table, 31, "Manifest", "kinds", out,
    )
}

/// Stores `track`.
#[unsafe(no_mangle)]
pub extern "C" fn harbour_manifest_track(
    buffer: &[u8],
    table: usize,
    out: &mut planus_foreign::Span,
) -> u32
    ensures { call.Reads
        (λ t. place.IsField (plains pos_shape) t 32 (codes "Manifest") (codes "track"))
        place.ItemsIf buffer.now table out.old out.new result }
{
    planus_foreign::read_items_if::<harbour::Pos>(buffer, table, 32, "Manifest", "track", out)
}

/// Stores `labels`.
#[unsafe(no_mangle)]
pub extern "C" fn harbour_manifest_labels(
    buffer: &[u8],
    table: usize,
    out: &mut planus_foreign::Span,
) -> u32
    ensures { call.Reads (λ t. place.IsField texts t 33 (codes "Manifest") (codes "labels"))
        place.ItemsIf buffer.now table out.old out.new result }
{
    planus_foreign::read_texts_if(buffer, table, 33, "Manifest", "labels", out)
}

/// Stores `holders`.
#[unsafe(no_mangle)]
pub extern "C" fn harbour_manifest_holders(
    buffer: &[u8],
    table: usize,
    out: &mut planus_foreign::Span,
) -> u32
    ensures { call.Reads (λ t. place.IsRequired texts t 34 (codes "Manifest") (codes "holders"))
        place.Items buffer.now table out.old out.new result }
{
    planus_foreign::read_texts(buffer, table, 34, "Manifest", "holders", out)
}

/// Stores `ship`.
#[unsafe(no_mangle)]
pub extern "C" fn harbour_manifest_ship(buffer: &[u8], table: usize, out: &mut usize) -> u32
    ensures { call.Reads (λ t. place.IsPositionRequired t 35 (codes "Manifest") (codes "ship"))
        (place.TablePosition buffer.now) buffer.now table out.old out.new result }
{
    planus_foreign::read_table(buffer, table, 35, "Manifest", "ship", out)
}

/// Stores `next`.
#[unsafe(no_mangle)]
pub extern "C" fn harbour_manifest_next(buffer: &[u8], table: usize, out: &mut usize) -> u32
    ensures { call.Reads (λ t. place.IsPositionField t 36 (codes "Manifest") (codes "next"))
        (place.TablePositionIf buffer.now) buffer.now table out.old out.new result }
{
    planus_foreign::read_table_if(buffer, table, 36, "Manifest", "next", out)
}

/// Stores `persons`.
#[unsafe(no_mangle)]
pub extern "C" fn harbour_manifest_persons(
    buffer: &[u8],
    table: usize,
    out: &mut planus_foreign::Span,
) -> u32
    ensures { call.Reads
        (λ t. place.IsField (tables Person) t 37 (codes "Manifest") (codes "persons"))
        place.ItemsIf buffer.now table out.old out.new result }
{
    planus_foreign::read_tables_if::<harbour::Person>(buffer, table, 37, "Manifest", "persons", out)
}

/// Stores `parts`.
#[unsafe(no_mangle)]
pub extern "C" fn harbour_manifest_parts(
    buffer: &[u8],
    table: usize,
    out: &mut planus_foreign::Span,
) -> u32
    ensures { call.Reads
        (λ t. place.IsRequired (tables Manifest) t 38 (codes "Manifest") (codes "parts"))
        place.Items buffer.now table out.old out.new result }
{
    planus_foreign::read_tables::<harbour::Manifest>(buffer, table, 38, "Manifest", "parts", out)
}

/// Stores `owner`.
#[unsafe(no_mangle)]
pub extern "C" fn harbour_manifest_owner(
    buffer: &[u8],
    table: usize,
    out: &mut planus_foreign::Member,
) -> u32
    ensures { call.Reads (λ t. place.IsMemberField t 39 (codes "Manifest") (codes "owner"))
        call.ValueIf buffer.now table out.old out.new result }
{
    planus_foreign::read_union_if(buffer, table, 39, "Manifest", "owner", out)
}

/// Stores `payer`.
#[unsafe(no_mangle)]
pub extern "C" fn harbour_manifest_payer(
    buffer: &[u8],
    table: usize,
    out: &mut planus_foreign::Member,
) -> u32
    ensures { call.Reads (λ t. place.IsMemberRequired t 41 (codes "Manifest") (codes "payer"))
        call.Value buffer.now table out.old out.new result }
{
    planus_foreign::read_union(buffer, table, 41, "Manifest", "payer", out)
}

/// Stores `owners`.
#[unsafe(no_mangle)]
pub extern "C" fn harbour_manifest_owners(
    buffer: &[u8],
    table: usize,
    index: usize,
    out: &mut planus_foreign::Member,
) -> u32
    ensures { call.Reads (λ t. place.IsMembers t 43 (codes "Manifest") (codes "owners"))
        (place.MemberItemIf index) buffer.now table out.old out.new result }
{
    planus_foreign::read_union_item(buffer, table, 43, index, "Manifest", "owners", out)
}
