//! Whether the texts of a crate have the root of its schema, and the file identifier.

ghost use Rattle.std.specs.Prelude.{◌≡◌, ◌++◌, codes, decimal, IfOk, OnOk, IsTrue};
ghost use Rattle.std.specs.List.{flat_map};
ghost use Rattle.std.specs.Option.{option_copied};
ghost use Rattle.planus_tie.specs.Bare as bare_spec;
ghost use Rattle.planus_tie.specs.Holes.{filled};
ghost use Rattle.planus_tie.specs.Roots as spec;

use crate::bare::bare;
use crate::holes::{Holes, push_filled};
use crate::naming::Naming;
use crate::pieces::{push_number, push_str};
use crate::reading::{after, begins, body_of};
use planus_schema::{Base, Number};
use std::alloc::{AllocError, Global};

fn root_holes(index: usize) -> Holes
    ensures { result ≡ spec.root_holes index }
{
    Holes {
        index,
        place: 0,
        base: Base::Table(index),
        number: Number {
            negative: false,
            magnitude: 0,
        },
        size: 0,
        alignment: 0,
        count: None,
        padding: 0,
    }
}

fn bare_filled(
    alloc: Global,
    naming: &Naming<'_>,
    own: Holes,
    text: &str,
) -> Result<Vec<u8>, AllocError>
    ensures { IfOk result (λ out. out.items ≡ bare_spec.bare (filled naming.now own text.now)) }
{
    let mut out = Vec::new(alloc);
    push_filled(&mut out, naming, own, text)?;
    bare(alloc, &out)
}

/// Returns whether a text without layout has a function that begins so and has this body.
fn has_function(
    alloc: Global,
    naming: &Naming<'_>,
    own: Holes,
    head: &str,
    body: &str,
    text: &[u8],
) -> Result<bool, AllocError>
    ensures { IfOk result (λ b. b
        ≡ spec.has_function naming.now own head.now body.now text.now) }
{
    let head = bare_filled(alloc, naming, own, head)?;
    let body = bare_filled(alloc, naming, own, body)?;
    Ok(begins(body_of(&head, text), &body))
}

fn reads(alloc: Global, naming: &Naming<'_>, own: Holes, text: &[u8]) -> Result<bool, AllocError>
    ensures { IfOk result (λ b. b ≡ spec.reads naming.now own text.now) }
{
    let head = "pub fn read_as_root(bytes: &[u8]) -> planus::Result<$TRef<'_>>";
    let sized = "pub fn read_size_prefixed_as_root(bytes: &[u8]) \
         -> planus::Result<($TRef<'_>, &[u8])>";
    if !has_function(alloc, naming, own, head, "read_root(bytes) }", text)? {
        return Ok(false);
    }
    has_function(alloc, naming, own, sized, "read_sized_root(bytes) }", text)
}

fn verifies(alloc: Global, naming: &Naming<'_>, own: Holes, text: &[u8]) -> Result<bool, AllocError>
    ensures { IfOk result (λ b. b ≡ spec.verifies naming.now own text.now) }
{
    let head = "pub fn verify_as_root(bytes: &[u8], limits: planus_views::Limits) \
         -> Result<$TView<'_>, planus_views::Fault>";
    let sized = "pub fn verify_size_prefixed_as_root(bytes: &[u8], limits: planus_views::Limits) \
         -> Result<($TView<'_>, &[u8]), planus_views::BufferFault>";
    let body = "planus_views::verify_root(bytes, limits) }";
    let of_sized = "planus_views::verify_sized_buffer(bytes, limits, None) }";
    if !has_function(alloc, naming, own, head, body, text)? {
        return Ok(false);
    }
    has_function(alloc, naming, own, sized, of_sized, text)
}

fn finds(alloc: Global, naming: &Naming<'_>, own: Holes, text: &[u8]) -> Result<bool, AllocError>
    ensures { IfOk result (λ b. b ≡ spec.finds naming.now own text.now) }
{
    let error = "pub fn where_is(alloc: std::alloc::Global, error: &planus::Error, bytes: &[u8]) \
         -> Result<Option<planus_views::FieldPath>, std::alloc::AllocError>";
    let fault = "pub fn where_fault_is(alloc: std::alloc::Global, fault: &planus_views::Fault, \
         bytes: &[u8]) -> Result<Option<planus_views::FieldPath>, std::alloc::AllocError>";
    let of_error = "let names = crate::verified::names(); \
         let limits = planus_views::Limits::default(); \
         planus_views::where_is::<$T>(alloc, &names, error, bytes, limits) }";
    let of_fault = "let names = crate::verified::names(); \
         let limits = planus_views::Limits::default(); \
         planus_views::where_fault_is::<$T>(alloc, &names, fault, bytes, limits) }";
    if !has_function(alloc, naming, own, error, of_error, text)? {
        return Ok(false);
    }
    has_function(alloc, naming, own, fault, of_fault, text)
}

fn finishes(alloc: Global, naming: &Naming<'_>, own: Holes, text: &[u8]) -> Result<bool, AllocError>
    ensures { IfOk result (λ b. b ≡ spec.finishes naming.now own text.now) }
{
    let head = "pub fn finish_root(builder: &mut Builder, root: Offset<$T>) \
         -> Result<&[u8], BuildError>";
    let sized = "pub fn finish_root_size_prefixed(builder: &mut Builder, root: Offset<$T>) \
         -> Result<&[u8], BuildError>";
    let body = "builder.finish(root, Some(FILE_IDENTIFIER)) }";
    let of_sized = "builder.finish_size_prefixed(root, Some(FILE_IDENTIFIER)) }";
    if !has_function(alloc, naming, own, head, body, text)? {
        return Ok(false);
    }
    has_function(alloc, naming, own, sized, of_sized, text)
}

fn looks(alloc: Global, naming: &Naming<'_>, own: Holes, text: &[u8]) -> Result<bool, AllocError>
    ensures { IfOk result (λ b. b ≡ spec.looks naming.now own text.now) }
{
    let head = "pub fn has_identifier(bytes: &[u8]) -> bool";
    let body = "planus::has_identifier(bytes, FILE_IDENTIFIER) }";
    has_function(alloc, naming, own, head, body, text)
}

fn verifies_identified(
    alloc: Global,
    naming: &Naming<'_>,
    own: Holes,
    text: &[u8],
) -> Result<bool, AllocError>
    ensures { IfOk result (λ b. b ≡ spec.verifies_identified naming.now own text.now) }
{
    let head = "pub fn verify_buffer(bytes: &[u8], limits: planus_views::Limits) \
         -> Result<$TView<'_>, planus_views::BufferFault>";
    let sized = "pub fn verify_size_prefixed_buffer(bytes: &[u8], limits: planus_views::Limits) \
         -> Result<($TView<'_>, &[u8]), planus_views::BufferFault>";
    let body = "planus_views::verify_buffer(bytes, limits, Some(FILE_IDENTIFIER)) }";
    let of_sized = "planus_views::verify_sized_buffer(bytes, limits, Some(FILE_IDENTIFIER)) }";
    if !has_function(alloc, naming, own, head, body, text)? {
        return Ok(false);
    }
    has_function(alloc, naming, own, sized, of_sized, text)
}

fn has_verified(
    alloc: Global,
    naming: &Naming<'_>,
    own: Holes,
    identified: bool,
    text: &[u8],
) -> Result<bool, AllocError>
    ensures { IfOk result (λ b. b ≡ spec.has_verified identified naming.now own text.now) }
{
    if !verifies(alloc, naming, own, text)? || !finds(alloc, naming, own, text)? {
        return Ok(false);
    }
    if !identified {
        return Ok(true);
    }
    verifies_identified(alloc, naming, own, text)
}

fn has_identified(
    alloc: Global,
    naming: &Naming<'_>,
    own: Holes,
    text: &[u8],
) -> Result<bool, AllocError>
    ensures { IfOk result (λ b. b ≡ spec.has_identified naming.now own text.now) }
{
    if !finishes(alloc, naming, own, text)? {
        return Ok(false);
    }
    looks(alloc, naming, own, text)
}

fn is_root_text(
    alloc: Global,
    naming: &Naming<'_>,
    own: Holes,
    verified: bool,
    identified: bool,
    text: &[u8],
) -> Result<bool, AllocError>
    ensures { IfOk result (λ b. b
        ≡ spec.is_root_text verified identified naming.now own text.now) }
{
    if !reads(alloc, naming, own, text)? {
        return Ok(false);
    }
    if verified && !has_verified(alloc, naming, own, identified, text)? {
        return Ok(false);
    }
    if !identified {
        return Ok(true);
    }
    has_identified(alloc, naming, own, text)
}

/// Returns whether this is the text of the root of this index.
pub(crate) fn is_root_tied(
    alloc: Global,
    naming: &Naming<'_>,
    verified: bool,
    identified: bool,
    index: usize,
    text: &[u8],
) -> Result<bool, AllocError>
    ensures { IfOk result (λ b. IsTrue b
        → spec.IsRootTied verified identified naming.now index text.now) }
{
    let without = bare(alloc, text)?;
    is_root_text(
        alloc,
        naming,
        root_holes(index),
        verified,
        identified,
        &without,
    )
}

fn push_next(out: &mut Vec<u8>, byte: u8) -> Result<(), AllocError>
    ensures { OnOk result (out.new.items ≡ out.old.items ++ (codes "," ++ decimal byte)) }
{
    push_str(out, ",")?;
    push_number(out, byte as u64)
}

fn push_others(out: &mut Vec<u8>, bytes: &[u8]) -> Result<(), AllocError>
    ensures { OnOk result (out.new.items
        ≡ out.old.items ++ flat_map (λ x. codes "," ++ decimal x) bytes.now) }
{
    for byte in bytes {
        push_next(out, *byte)?;
    }
    Ok(())
}

fn push_numbers(out: &mut Vec<u8>, bytes: &[u8]) -> Result<(), AllocError>
    ensures { OnOk result (out.new.items ≡ out.old.items ++ spec.numbers bytes.now) }
{
    let Some((first, others)) = bytes.split_first() else {
        return Ok(());
    };
    push_number(out, *first as u64)?;
    push_others(out, others)
}

fn identifier_text(alloc: Global, bytes: &[u8]) -> Result<Vec<u8>, AllocError>
    ensures { IfOk result (λ out. out.items
        ≡ codes "[u8;4]=[" ++ (spec.numbers bytes.now ++ codes "];")) }
{
    let mut out = Vec::new(alloc);
    push_str(&mut out, "[u8;4]=[")?;
    push_numbers(&mut out, bytes)?;
    push_str(&mut out, "];")?;
    Ok(out)
}

fn has_identifier(alloc: Global, identifier: Option<&[u8]>, text: &[u8]) -> Result<bool, AllocError>
    ensures { IfOk result (λ b. b
        ≡ spec.has_identifier (option_copied identifier.entry) text.now) }
{
    let found = after(b"pub const FILE_IDENTIFIER:", text);
    match identifier {
        None => Ok(found.is_none()),
        Some(bytes) => {
            let wanted = identifier_text(alloc, bytes)?;
            Ok(begins(found, &wanted))
        }
    }
}

/// Returns whether a text has the constant of a file identifier with these bytes, or none.
pub(crate) fn is_identifier_tied(
    alloc: Global,
    identifier: Option<&[u8]>,
    text: &[u8],
) -> Result<bool, AllocError>
    ensures { IfOk result (λ b. IsTrue b
        → spec.IsIdentifierTied (option_copied identifier.entry) text.now) }
{
    let without = bare(alloc, text)?;
    has_identifier(alloc, identifier, &without)
}
