//! Calls over a whole buffer.

ghost use Rattle.std.specs.Prelude.{◌↔◌, ◌∷◌, [], IsTrue};
ghost use Rattle.planus.specs.Printed.{BytesStand};
ghost use Rattle.harbour.specs.Verified.{verified_schema};
ghost use Rattle.planus_foreign.specs.Verifies.{Verifies};

#[unsafe(no_mangle)]
pub extern "C" fn harbour_verify(
    buffer: &[u8],
    depth: u8,
    most_tables: usize,
    out: &mut planus_foreign::FaultPlace,
) -> u32
    ensures { Verifies verified_schema 2 depth most_tables buffer.now out.old out.new result }
{
    planus_foreign::verify::<harbour::Ship>(buffer, depth, most_tables, out)
}

#[unsafe(no_mangle)]
pub extern "C" fn harbour_has_identifier(buffer: &[u8]) -> bool
    ensures { IsTrue result ↔ BytesStand buffer.now 4 (83 ∷ 72 ∷ 73 ∷ 80 ∷ []) }
{
    harbour::has_identifier(buffer)
}
