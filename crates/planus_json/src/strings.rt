//! Strings in quotes.
ghost use Rattle.std.specs.Prelude.{◌≡◌, ◌++◌, OnOk};
ghost use Rattle.std.specs.List.{flat_map};
ghost use Rattle.std.specs.Str.{chars};
ghost use Rattle.std.specs.String.{string_bytes};
ghost use Rattle.planus_json.specs.Json as spec;

use planus_dump::push_hex;
use std::alloc::AllocError;

fn push_escaped(text: &mut String, c: char) -> Result<(), AllocError>
    ensures { OnOk result (string_bytes text.new ≡ string_bytes text.old ++ spec.escaped c) }
{
    match c {
        '"' => text.push_str("\\\""),
        '\\' => text.push_str("\\\\"),
        '\u{8}' => text.push_str("\\b"),
        '\u{c}' => text.push_str("\\f"),
        '\n' => text.push_str("\\n"),
        '\r' => text.push_str("\\r"),
        '\t' => text.push_str("\\t"),
        '\0'..='\u{1f}' => {
            text.push_str("\\u00")?;
            push_hex(text, c as u8)
        }
        c => text.push(c),
    }
}

fn push_all_escaped(text: &mut String, content: &str) -> Result<(), AllocError>
    ensures { OnOk result (string_bytes text.new
        ≡ string_bytes text.old ++ flat_map spec.escaped (chars content.now)) }
{
    for c in content.chars() {
        push_escaped(text, c)?;
    }
    Ok(())
}

/// Adds a string in quotes.
pub fn push_string(text: &mut String, content: &str) -> Result<(), AllocError>
    ensures { OnOk result (string_bytes text.new
        ≡ string_bytes text.old ++ spec.quoted content.now) }
{
    text.push_str("\"")?;
    push_all_escaped(text, content)?;
    text.push_str("\"")
}
