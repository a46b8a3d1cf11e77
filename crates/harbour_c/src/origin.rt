//! Calls over tables `Origin`.

ghost use Rattle.std.specs.Prelude.{codes};
ghost use Rattle.planus.specs.Printed.{u16_shape, IsPlainFieldOr};
ghost use Rattle.planus_foreign.specs.Calls as call;
ghost use Rattle.planus_foreign.specs.Places as place;

/// Stores `host`.
#[unsafe(no_mangle)]
pub extern "C" fn harbour_origin_host(
    buffer: &[u8],
    table: usize,
    out: &mut planus_foreign::Span,
) -> u32
    ensures { call.Reads (λ t. place.IsTextSpanField t 0 (codes "Origin") (codes "host"))
        call.ValueIf buffer.now table out.old out.new result }
{
    planus_foreign::read_text_if(buffer, table, 0, "Origin", "host", out)
}

/// Stores `port`.
#[unsafe(no_mangle)]
pub extern "C" fn harbour_origin_port(buffer: &[u8], table: usize, out: &mut u16) -> u32
    ensures { call.Reads (λ t. IsPlainFieldOr u16_shape 0 t 1 (codes "Origin") (codes "port"))
        call.Value buffer.now table out.old out.new result }
{
    planus_foreign::read_value_or(buffer, table, 1, 0, "Origin", "port", out)
}
