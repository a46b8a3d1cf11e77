//! Names in the lines of a dump.
ghost use Rattle.std.specs.Prelude.{◌≡◌, IfOk, OnOk};
ghost use Rattle.std.specs.String.{string_bytes};
ghost use Rattle.planus_inspect.specs.Shown as spec;

use planus_dump::is_name_byte;
use std::alloc::{AllocError, Global};

fn take_byte(word: &mut String, byte: u8) -> Result<(), AllocError>
    ensures { OnOk result (string_bytes word.new ≡ spec.after_dot (string_bytes word.old) byte) }
{
    if byte == b'.' {
        word.clear();
        Ok(())
    } else if is_name_byte(byte) {
        word.push(byte as char)
    } else {
        word.push('_')
    }
}

fn last_word(alloc: Global, name: &[u8]) -> Result<String, AllocError>
    ensures { IfOk result (λ word. string_bytes word ≡ spec.last_word name.now) }
{
    let mut word = String::new(alloc);
    for byte in name {
        take_byte(&mut word, *byte)?;
    }
    Ok(word)
}

/// The word after the last dot, and `_` for an empty one.
pub(crate) fn shown_name(alloc: Global, name: &[u8]) -> Result<String, AllocError>
    ensures { IfOk result (λ word. string_bytes word ≡ spec.shown_name name.now) }
{
    let mut word = last_word(alloc, name)?;
    if word.is_empty() {
        word.push('_')?;
    }
    Ok(word)
}
