//! JSON: texts, and places in files.

ghost use Rattle.std.specs.Prelude.{◌≡◌, ◌++◌, IfOk, OnOk};
ghost use Rattle.std.specs.Fmt.{decimal};
ghost use Rattle.std.specs.List.{flat_map};
ghost use Rattle.std.specs.Option.{option_map};
ghost use Rattle.planus_cli.specs.Json as spec;

use crate::report::last_line;
use crate::shown::hex_digit;
use std::alloc::{AllocError, Global};

fn put_byte(out: &mut Vec<u8>, byte: u8) -> Result<(), AllocError>
    ensures { OnOk result (out.new.items ≡ out.old.items ++ spec.escaped byte) }
{
    match byte {
        b'"' | b'\\' => out.extend_from_slice(&[b'\\', byte])?,
        0..=31 => {
            out.extend_from_slice(b"\\u00")?;
            out.extend_from_slice(&[hex_digit(byte / 16), hex_digit(byte % 16)])?;
        }
        _ => out.push(byte)?,
    }
    Ok(())
}

fn put_bytes(out: &mut Vec<u8>, bytes: &[u8]) -> Result<(), AllocError>
    ensures { OnOk result (out.new.items ≡ out.old.items ++ flat_map spec.escaped bytes.now) }
{
    for b in bytes {
        put_byte(out, *b)?;
    }
    Ok(())
}

/// Adds a text in UTF-8, in quotes.
pub(crate) fn put_text(out: &mut Vec<u8>, text: &[u8]) -> Result<(), AllocError>
    ensures { OnOk result (out.new.items ≡ out.old.items ++ spec.text_json text.now) }
{
    out.push(b'"')?;
    put_bytes(out, text)?;
    out.push(b'"')?;
    Ok(())
}

pub(crate) fn put_text_or_null(out: &mut Vec<u8>, text: Option<&[u8]>) -> Result<(), AllocError>
    ensures { OnOk result (out.new.items
        ≡ out.old.items ++ spec.text_or_null (option_map (λ w. w.now) text.entry)) }
{
    match text {
        Some(text) => put_text(out, text)?,
        None => out.extend_from_slice(b"null")?,
    }
    Ok(())
}

fn put_number(alloc: Global, out: &mut Vec<u8>, number: usize) -> Result<(), AllocError>
    ensures { OnOk result (out.new.items ≡ out.old.items ++ decimal number) }
{
    let text = format!(in alloc; "{number}")?;
    out.extend_from_slice(text.as_bytes())?;
    Ok(())
}

/// Returns the place after these bytes of a file: its line, and its column in bytes, from 1.
pub(crate) fn place_json(alloc: Global, name: &str, before: &[u8]) -> Result<Vec<u8>, AllocError>
    ensures { IfOk result (λ json. json.items ≡ spec.place_json name.now before.now) }
{
    let (feeds, front) = last_line(before);
    let mut json = Vec::from_slice(alloc, b"{\"file\":")?;
    put_text(&mut json, name.as_bytes())?;
    json.extend_from_slice(b",\"line\":")?;
    put_number(alloc, &mut json, feeds + 1)?;
    json.extend_from_slice(b",\"column\":")?;
    put_number(alloc, &mut json, front.len() + 1)?;
    json.push(b'}')?;
    Ok(json)
}
