//! Calls over what is at a position: an item of a vector, or a union's value.

ghost use Rattle.harbour.specs.Fix.{fix_shape};
ghost use Rattle.harbour.specs.Gauge.{gauge_shape};
ghost use Rattle.harbour.specs.Kind.{kind_shape};
ghost use Rattle.harbour.specs.Level.{level_shape};
ghost use Rattle.harbour.specs.Needs.{needs_shape};
ghost use Rattle.harbour.specs.Pos.{pos_shape};
ghost use Rattle.harbour.specs.Signal.{signal_shape};
ghost use Rattle.planus_foreign.specs.Calls as call;
ghost use Rattle.planus_foreign.specs.Places as place;

#[unsafe(no_mangle)]
pub extern "C" fn harbour_string_at(
    buffer: &[u8],
    position: usize,
    out: &mut planus_foreign::Span,
) -> u32
    ensures { call.ReadsThere place.IsTextAt call.IsSame buffer.now position out.old out.new
        result }
{
    planus_foreign::read_text_at(buffer, position, out)
}

#[unsafe(no_mangle)]
pub extern "C" fn harbour_sized(buffer: &[u8], out: &mut planus_foreign::Span) -> u32
    ensures { place.SizedSpan buffer.now out.old out.new result }
{
    planus_foreign::read_sized(buffer, out)
}

#[unsafe(no_mangle)]
pub extern "C" fn harbour_kind_at(buffer: &[u8], position: usize, out: &mut [u8; 1]) -> u32
    ensures { call.ReadsThere (place.IsValueAt kind_shape) (call.IsBytesOf kind_shape) buffer.now
        position out.old out.new result }
{
    planus_foreign::read_bytes_at::<harbour::Kind, 1>(buffer, position, out)
}

#[unsafe(no_mangle)]
pub extern "C" fn harbour_level_at(buffer: &[u8], position: usize, out: &mut [u8; 2]) -> u32
    ensures { call.ReadsThere (place.IsValueAt level_shape) (call.IsBytesOf level_shape) buffer.now
        position out.old out.new result }
{
    planus_foreign::read_bytes_at::<harbour::Level, 2>(buffer, position, out)
}

#[unsafe(no_mangle)]
pub extern "C" fn harbour_needs_at(buffer: &[u8], position: usize, out: &mut [u8; 2]) -> u32
    ensures { call.ReadsThere (place.IsValueAt needs_shape) (call.IsBytesOf needs_shape) buffer.now
        position out.old out.new result }
{
    planus_foreign::read_bytes_at::<harbour::Needs, 2>(buffer, position, out)
}

#[unsafe(no_mangle)]
pub extern "C" fn harbour_pos_at(buffer: &[u8], position: usize, out: &mut [u8; 12]) -> u32
    ensures { call.ReadsThere (place.IsValueAt pos_shape) (call.IsBytesOf pos_shape) buffer.now
        position out.old out.new result }
{
    planus_foreign::read_bytes_at::<harbour::Pos, 12>(buffer, position, out)
}

#[unsafe(no_mangle)]
pub extern "C" fn harbour_pos_behind(buffer: &[u8], position: usize, out: &mut [u8; 12]) -> u32
    ensures { call.ReadsThere (place.IsValueBehind pos_shape) (call.IsBytesOf pos_shape) buffer.now
        position out.old out.new result }
{
    planus_foreign::read_bytes_behind::<harbour::Pos, 12>(buffer, position, out)
}

#[unsafe(no_mangle)]
pub extern "C" fn harbour_fix_at(buffer: &[u8], position: usize, out: &mut [u8; 24]) -> u32
    ensures { call.ReadsThere (place.IsValueAt fix_shape) (call.IsBytesOf fix_shape) buffer.now
        position out.old out.new result }
{
    planus_foreign::read_bytes_at::<harbour::Fix, 24>(buffer, position, out)
}

#[unsafe(no_mangle)]
pub extern "C" fn harbour_fix_behind(buffer: &[u8], position: usize, out: &mut [u8; 24]) -> u32
    ensures { call.ReadsThere (place.IsValueBehind fix_shape) (call.IsBytesOf fix_shape) buffer.now
        position out.old out.new result }
{
    planus_foreign::read_bytes_behind::<harbour::Fix, 24>(buffer, position, out)
}

#[unsafe(no_mangle)]
pub extern "C" fn harbour_gauge_at(buffer: &[u8], position: usize, out: &mut [u8; 8]) -> u32
    ensures { call.ReadsThere (place.IsValueAt gauge_shape) (call.IsBytesOf gauge_shape) buffer.now
        position out.old out.new result }
{
    planus_foreign::read_bytes_at::<harbour::Gauge, 8>(buffer, position, out)
}

#[unsafe(no_mangle)]
pub extern "C" fn harbour_gauge_behind(buffer: &[u8], position: usize, out: &mut [u8; 8]) -> u32
    ensures { call.ReadsThere (place.IsValueBehind gauge_shape) (call.IsBytesOf gauge_shape)
        buffer.now position out.old out.new result }
{
    planus_foreign::read_bytes_behind::<harbour::Gauge, 8>(buffer, position, out)
}

#[unsafe(no_mangle)]
pub extern "C" fn harbour_signal_at(buffer: &[u8], position: usize, out: &mut [u8; 1]) -> u32
    ensures { call.ReadsThere (place.IsValueAt signal_shape) (call.IsBytesOf signal_shape)
        buffer.now position out.old out.new result }
{
    planus_foreign::read_bytes_at::<harbour::Signal, 1>(buffer, position, out)
}
