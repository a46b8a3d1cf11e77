//! Calls over tables `Person`.

ghost use Rattle.std.specs.Prelude.{codes};
ghost use Rattle.planus.specs.Printed.{u8_shape, IsPlainFieldOr};
ghost use Rattle.planus_foreign.specs.Calls as call;
ghost use Rattle.planus_foreign.specs.Places as place;

/// Stores `name`.
#[unsafe(no_mangle)]
pub extern "C" fn harbour_person_name(
    buffer: &[u8],
    table: usize,
    out: &mut planus_foreign::Span,
) -> u32
    ensures { call.Reads (λ t. place.IsTextSpanRequired t 0 (codes "Person") (codes "name"))
        call.Value buffer.now table out.old out.new result }
{
    planus_foreign::read_text(buffer, table, 0, "Person", "name", out)
}

/// Stores `age`.
#[unsafe(no_mangle)]
pub extern "C" fn harbour_person_age(buffer: &[u8], table: usize, out: &mut u8) -> u32
    ensures { call.Reads (λ t. IsPlainFieldOr u8_shape 18 t 1 (codes "Person") (codes "age"))
        call.Value buffer.now table out.old out.new result }
{
    planus_foreign::read_value_or(buffer, table, 1, 18, "Person", "age", out)
}
