//! Calls over tables `Entry`.

ghost use Rattle.std.specs.Prelude.{codes};
ghost use Rattle.planus.specs.Printed.{u64_shape, IsPlainFieldOr, tables};
ghost use Rattle.harbour.specs.declared.entry.Entry.{Entry};
ghost use Rattle.planus_foreign.specs.Calls as call;
ghost use Rattle.planus_foreign.specs.Places as place;

/// Stores `at`.
#[unsafe(no_mangle)]
pub extern "C" fn harbour_entry_at(buffer: &[u8], table: usize, out: &mut u64) -> u32
    ensures { call.Reads (λ t. IsPlainFieldOr u64_shape 0 t 0 (codes "Entry") (codes "at"))
        call.Value buffer.now table out.old out.new result }
{
    planus_foreign::read_value_or(buffer, table, 0, 0, "Entry", "at", out)
}

/// Stores `text`.
#[unsafe(no_mangle)]
pub extern "C" fn harbour_entry_text(
    buffer: &[u8],
    table: usize,
    out: &mut planus_foreign::Span,
) -> u32
    ensures { call.Reads (λ t. place.IsTextSpanRequired t 1 (codes "Entry") (codes "text"))
        call.Value buffer.now table out.old out.new result }
{
    planus_foreign::read_text(buffer, table, 1, "Entry", "text", out)
}

/// Stores `origin`.
#[unsafe(no_mangle)]
pub extern "C" fn harbour_entry_origin(buffer: &[u8], table: usize, out: &mut usize) -> u32
    ensures { call.Reads (λ t. place.IsPositionRequired t 2 (codes "Entry") (codes "origin"))
        (place.TablePosition buffer.now) buffer.now table out.old out.new result }
{
    planus_foreign::read_table(buffer, table, 2, "Entry", "origin", out)
}

/// Stores `cause`.
#[unsafe(no_mangle)]
pub extern "C" fn harbour_entry_cause(
    buffer: &[u8],
    table: usize,
    out: &mut planus_foreign::Member,
) -> u32
    ensures { call.Reads (λ t. place.IsMemberField t 3 (codes "Entry") (codes "cause"))
        call.ValueIf buffer.now table out.old out.new result }
{
    planus_foreign::read_union_if(buffer, table, 3, "Entry", "cause", out)
}

/// Stores `parents`.
#[unsafe(no_mangle)]
pub extern "C" fn harbour_entry_parents(
    buffer: &[u8],
    table: usize,
    out: &mut planus_foreign::Span,
) -> u32
    ensures { call.Reads (λ t. place.IsField (tables Entry) t 5 (codes "Entry") (codes "parents"))
        place.ItemsIf buffer.now table out.old out.new result }
{
    planus_foreign::read_tables_if::<harbour::Entry>(buffer, table, 5, "Entry", "parents", out)
}
