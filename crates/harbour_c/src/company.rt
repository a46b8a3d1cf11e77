//! Calls over tables `Company`.

ghost use Rattle.std.specs.Prelude.{codes};
ghost use Rattle.planus.specs.Printed.{u8_shape, plains};
ghost use Rattle.planus_foreign.specs.Calls as call;
ghost use Rattle.planus_foreign.specs.Places as place;

/// Stores `title`.
#[unsafe(no_mangle)]
pub extern "C" fn harbour_company_title(
    buffer: &[u8],
    table: usize,
    out: &mut planus_foreign::Span,
) -> u32
    ensures { call.Reads (λ t. place.IsTextSpanField t 0 (codes "Company") (codes "title"))
        call.ValueIf buffer.now table out.old out.new result }
{
    planus_foreign::read_text_if(buffer, table, 0, "Company", "title", out)
}

/// Stores `vat`.
#[unsafe(no_mangle)]
pub extern "C" fn harbour_company_vat(
    buffer: &[u8],
    table: usize,
    out: &mut planus_foreign::Span,
) -> u32
    ensures { call.Reads (λ t. place.IsField (plains u8_shape) t 1 (codes "Company") (codes "vat"))
        place.ItemsIf buffer.now table out.old out.new result }
{
    planus_foreign::read_items_if::<u8>(buffer, table, 1, "Company", "vat", out)
}
