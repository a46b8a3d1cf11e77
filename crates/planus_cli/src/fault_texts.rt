//! The messages of faults of meaning.

ghost use Rattle.std.specs.Prelude.{◌≡◌, ◌++◌, map, slice_get, Some, IfOk, OnOk};
ghost use Rattle.planus_cli.specs.FaultTexts as spec;
ghost use Rattle.std.specs.Option.{option_map};
ghost use Rattle.planus_resolve.specs.Names.{head_of};
ghost use Rattle.planus_cli.specs.Near.{hint_of};

use crate::near::nearest_type;
use planus_resolve::{FaultKind, Head};
use std::alloc::{AllocError, Global};

fn before(kind: FaultKind) -> &'static str
    ensures { result.now ≡ spec.before kind }
{
    match kind {
        FaultKind::UnknownType(_) => "unknown type ",
        FaultKind::UnknownAttribute => "unknown attribute ",
        _ => "",
    }
}

fn after(kind: FaultKind) -> &'static str
    ensures { result.now ≡ spec.after kind }
{
    match kind {
        FaultKind::UnknownType(_) => "",
        FaultKind::NameTaken => ": this name is declared before",
        FaultKind::FieldNameTaken => ": a field before it has this name",
        FaultKind::ValueNameTaken => ": a value before it has this name",
        FaultKind::MemberNameTaken => ": a member before it has this name, or it is `NONE`",
        FaultKind::ValueTaken => ": a value before it has the same number",
        FaultKind::TagTaken => ": a member before it has the same number",
        FaultKind::NoIntegerType => " is no integer type",
        FaultKind::ValueOutOfRange => ": the type of the enum does not hold this number",
        FaultKind::TagOutOfRange => ": the number of a member is from 1 to 255",
        FaultKind::NoUnionMember => {
            ": a member of a union is a table, a struct or, after a name of its own, `string`"
        }
        FaultKind::NoStructField =>
            ": a field of a struct is a scalar, an enum, a struct or an array of these",
        FaultKind::DeclaredLater =>
            ": a struct holds only structs and enums that are declared before it",
        FaultKind::ArrayCount => ": an array has from 1 to 65535 items",
        FaultKind::ArrayInTable => ": a table can't hold an array; wrap it in a struct",
        FaultKind::DefaultInStruct =>
            ": a field of a struct can't have a default other than zero, and an array has none",
        FaultKind::AttributeInStruct => ": a field of a struct can't be `required` or `deprecated`",
        FaultKind::EmptyStruct => ": a struct needs a field",
        FaultKind::StructTooLarge => ": the struct has more than 65535 bytes",
        FaultKind::WrongAlignment =>
            ": the alignment is a power of two, from that of the fields to 32",
        FaultKind::WrongDefault => ": the default is no value of the field's type",
        FaultKind::UnknownValue => ": its enum has no value 0, so it needs a default",
        FaultKind::RequiredScalar => ": a scalar or an enum can't be `required`",
        FaultKind::IdMissing => ": it has no `id`, and other fields of the table have one",
        FaultKind::WrongId =>
            ": an `id` is a number from 0 to 65535, and that of a union from 1 on",
        FaultKind::IdsWithGap =>
            ": its `id`s are not all the numbers from 0 on, each once; a union takes two",
        FaultKind::TooManySlots => ": the table has more than 32765 slots",
        FaultKind::WrongKey => ": a `key` is a scalar, an enum or a string",
        FaultKind::SecondKey => ": a field before it is the `key`",
        FaultKind::WrongNested => ": only a `[ubyte]` can be a `nested_flatbuffer`",
        FaultKind::NestedIsNoTable => ": its value has to be a table's name in quotes",
        FaultKind::UnknownAttribute => "",
        FaultKind::RootIsNoTable => " is no table",
        FaultKind::WrongIdentifier => ": an identifier has exactly four bytes",
        FaultKind::MethodNameTaken => ": a method before it has this name",
        FaultKind::MethodIsNoTable => " is no table",
        FaultKind::TwoMeanings { .. } => "",
        FaultKind::FlagsInUnion =>
            " is for enums: flatc numbers the members of such a union by flags",
    }
}

fn bare_message(alloc: Global, kind: FaultKind, word: &[u8]) -> Result<Vec<u8>, AllocError>
    ensures { IfOk result (λ text. text.items ≡ spec.bare_message kind word.now) }
{
    let mut text = Vec::from_slice(alloc, before(kind).as_bytes())?;
    text.push(b'`')?;
    text.extend_from_slice(word)?;
    text.push(b'`')?;
    text.extend_from_slice(after(kind).as_bytes())?;
    Ok(text)
}

fn hint(alloc: Global, name: &[u8]) -> Result<Vec<u8>, AllocError>
    ensures { IfOk result (λ text. text.items ≡ hint_of (Some name.now)) }
{
    let mut text = Vec::from_slice(alloc, b"; did you mean `")?;
    text.extend_from_slice(name)?;
    text.extend_from_slice(b"`?")?;
    Ok(text)
}

fn put_hint(alloc: Global, text: &mut Vec<u8>, name: Option<&[u8]>) -> Result<(), AllocError>
    ensures { OnOk result (text.new.items
        ≡ text.old.items ++ hint_of (option_map (λ w. w.now) name.entry)) }
{
    match name {
        None => Ok(()),
        Some(name) => {
            let hint = hint(alloc, name)?;
            text.extend_from_slice(&hint)?;
            Ok(())
        }
    }
}

fn name_at<'a>(heads: &'a [Head], index: usize) -> &'a [u8]
    ensures { result.now ≡ spec.name_at (slice_get (map head_of heads.now) index) }
{
    match heads.get(index) {
        Some(head) => &head.name,
        None => &[],
    }
}

fn both_text(
    alloc: Global,
    word: &[u8],
    here: &[u8],
    elsewhere: &[u8],
) -> Result<Vec<u8>, AllocError>
    ensures { IfOk result (λ text. text.items ≡ spec.both_text word.now here.now elsewhere.now) }
{
    let mut text = Vec::from_slice(alloc, b"`")?;
    text.extend_from_slice(word)?;
    text.extend_from_slice(b"` means `")?;
    text.extend_from_slice(here)?;
    text.extend_from_slice(b"`, but flatc takes it for `")?;
    text.extend_from_slice(elsewhere)?;
    text.extend_from_slice(b"`; declare it before its use")?;
    Ok(text)
}

/// Returns the message of a fault, with the nearest type that may stand there for an unknown one,
/// and with both for a name of two meanings. `heads` are the declarations of all files.
pub fn message_text(
    alloc: Global,
    heads: &[Head],
    kind: FaultKind,
    word: &[u8],
) -> Result<Vec<u8>, AllocError>
    ensures { IfOk result (λ text. text.items
        ≡ spec.message_text (map head_of heads.now) kind word.now) }
{
    if let FaultKind::TwoMeanings { here, elsewhere } = kind {
        return both_text(alloc, word, name_at(heads, here), name_at(heads, elsewhere));
    }
    let mut text = bare_message(alloc, kind, word)?;
    if let FaultKind::UnknownType(expected) = kind {
        put_hint(alloc, &mut text, nearest_type(expected, heads, word))?;
    }
    Ok(text)
}
