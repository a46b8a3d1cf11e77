//! A text without its layout.

ghost use Rattle.std.specs.Prelude.{◌≡◌, ◌++◌, ◌∷◌, IfOk, OnOk, List, ℕ, ◌==◌, false, if◌then◌else◌};
ghost use Rattle.planus_tie.specs.Bare as spec;

use std::alloc::{AllocError, Global};

/// What stands before a byte.
#[derive(Clone, Copy)]
struct Before {
    comment: bool,
    last: u8,
    gap: u8,
}

fn is_blank(b: u8) -> bool
    ensures { result ≡ spec.is_blank b }
{
    b == b' ' || b == b'\n'
}

fn is_letter(b: u8) -> bool
    ensures { result ≡ spec.is_letter b }
{
    b.is_ascii_alphanumeric() || b == b'_'
}

fn widened(gap: u8) -> u8
    ensures { result ≡ spec.widened gap }
{
    if gap == b',' { b',' } else { b' ' }
}

fn begins_comment(b: u8, after: &[u8]) -> bool
    ensures { result ≡ spec.begins_comment b after.now }
{
    b == b'/' && after.starts_with(b"/")
}

fn push_joint(out: &mut Vec<u8>, before: Before, b: u8) -> Result<(), AllocError>
    ensures { OnOk result (out.new.items ≡ out.old.items ++ spec.joint before.last before.gap b) }
{
    if before.gap == b',' {
        if b != b')' && b != b'}' {
            out.push(b',')?;
        }
    } else if before.gap == b' ' && is_letter(before.last) && is_letter(b) {
        out.push(b' ')?;
    }
    Ok(())
}

fn put(out: &mut Vec<u8>, before: Before, b: u8) -> Result<Before, AllocError>
    ensures { IfOk result (λ now. (bs : List ℕ) →
        out.new.items ++ spec.bare_from now.comment now.last now.gap bs
        ≡ out.old.items ++ (spec.joint before.last before.gap b
        ++ (if b == 44 then spec.bare_from false b b bs else b ∷ spec.bare_from false b 0 bs))) }
{
    push_joint(out, before, b)?;
    let comma = b == b',';
    if !comma {
        out.push(b)?;
    }
    Ok(Before {
        comment: false,
        last: b,
        gap: if comma { b',' } else { 0 },
    })
}

fn step(out: &mut Vec<u8>, before: Before, b: u8, after: &[u8]) -> Result<Before, AllocError>
    ensures { IfOk result (λ now. out.new.items ++ spec.bare_from now.comment now.last now.gap
        after.now
        ≡ out.old.items ++ spec.bare_from before.comment before.last before.gap (b ∷ after.now)) }
{
    if before.comment {
        return Ok(Before {
            comment: b != b'\n',
            last: before.last,
            gap: before.gap,
        });
    }
    let comment = begins_comment(b, after);
    if comment || is_blank(b) {
        return Ok(Before {
            comment,
            last: before.last,
            gap: widened(before.gap),
        });
    }
    put(out, before, b)
}

/// Returns a text without comments, blanks but between words, and commas before brackets.
pub(crate) fn bare(alloc: Global, text: &[u8]) -> Result<Vec<u8>, AllocError>
    ensures { IfOk result (λ out. out.items ≡ spec.bare text.now) }
{
    let mut out = Vec::new(alloc);
    let mut before = Before {
        comment: false,
        last: 0,
        gap: 0,
    };
    let mut rest = text;
    'bytes: while let Some((b, after)) = rest.split_first() {
        before = step(&mut out, before, *b, after)?;
        rest = after;
    }
    Ok(out)
}
