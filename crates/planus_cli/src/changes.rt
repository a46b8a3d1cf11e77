//! What is said of breaks.

ghost use Rattle.std.specs.Prelude.{◌≡◌, IfOk};
ghost use Rattle.planus_cli.specs.Changes as spec;

use planus_conform::{Change, Place};
use std::alloc::{AllocError, Global};

/// What is said below the place in the old schema.
pub(crate) const BEFORE: &str = "the old schema has this";

/// What is said of a change.
#[derive(Clone, Copy)]
pub struct Saying {
    /// `note: ` of what is no break.
    pub label: &'static str,
    /// The change in a word.
    pub word: &'static str,
    /// Whose code reads data of the other schema otherwise: `old`, `new`, `both` or `none`.
    pub hurt: &'static str,
    pub effect: &'static str,
    /// What to do instead.
    pub advice: &'static str,
}

fn hurts(
    hurt: &'static str,
    word: &'static str,
    effect: &'static str,
    advice: &'static str,
) -> Saying
    ensures { spec.saying_view result ≡ spec.hurts hurt.now word.now effect.now advice.now }
{
    Saying {
        label: "",
        word,
        hurt,
        effect,
        advice,
    }
}

/// Of a change of which a user's code alone knows.
fn notes(word: &'static str, effect: &'static str, advice: &'static str) -> Saying
    ensures { spec.saying_view result ≡ spec.notes word.now effect.now advice.now }
{
    Saying {
        label: "note: ",
        word,
        hurt: "none",
        effect,
        advice,
    }
}

/// Of a change that breaks each way.
fn hurts_both(word: &'static str, effect: &'static str, advice: &'static str) -> Saying
    ensures { spec.saying_view result ≡ spec.hurts_both word.now effect.now advice.now }
{
    hurts("both", word, effect, advice)
}

/// Of a change that breaks new code that reads old data.
fn hurts_new(word: &'static str, effect: &'static str, advice: &'static str) -> Saying
    ensures { spec.saying_view result ≡ spec.hurts_new word.now effect.now advice.now }
{
    hurts("new", word, effect, advice)
}

/// Of a change that breaks old code that reads new data.
fn hurts_old(word: &'static str, effect: &'static str, advice: &'static str) -> Saying
    ensures { spec.saying_view result ≡ spec.hurts_old word.now effect.now advice.now }
{
    hurts("old", word, effect, advice)
}

fn moved(place: Place) -> Saying
    ensures { spec.saying_view result ≡ spec.moved place }
{
    match place {
        Place::Field(..) => {
            hurts_both(
                "moved",
                "another slot: code of either schema reads another field",
                "add fields last, or give all an `id`",
            )
        }
        Place::Part(..) => {
            hurts_both(
                "moved",
                "another distance: code of either schema reads other bytes",
                "declare another struct, and add a field of it",
            )
        }
        Place::Value(..) => {
            hurts_both(
                "moved",
                "another number: code of either schema reads another value",
                "write the numbers out",
            )
        }
        _ => {
            hurts_both(
                "moved",
                "another tag: code of either schema reads another member",
                "write the tags out",
            )
        }
    }
}

fn removed(place: Place) -> Saying
    ensures { spec.saying_view result ≡ spec.removed place }
{
    match place {
        Place::Part(..) => {
            hurts_both(
                "field_removed",
                "nothing at its distance: new code has lost the field",
                "declare another struct, and add a field of it",
            )
        }
        _ => {
            hurts_both(
                "field_removed",
                "removed: new code has lost the field",
                "keep it, and mark it `deprecated`",
            )
        }
    }
}

fn retyped(place: Place) -> Saying
    ensures { spec.saying_view result ≡ spec.retyped place }
{
    match place {
        Place::Part(..) => {
            hurts_both(
                "type_changed",
                "another type: code of either schema misreads it",
                "declare another struct, and add a field of it",
            )
        }
        _ => {
            hurts_both(
                "type_changed",
                "another type: code of either schema misreads it",
                "add a new field, and deprecate this one",
            )
        }
    }
}

fn required(required: bool) -> Saying
    ensures { spec.saying_view result ≡ spec.required required }
{
    if required {
        hurts_new(
            "required_changed",
            "now `required`: new code fails where it is absent",
            "leave it optional, and test for it in your code",
        )
    } else {
        hurts_old(
            "required_changed",
            "no longer `required`: old code fails where it is absent",
            "update readers first",
        )
    }
}

/// Returns what is said of a change. `is_required`: whether the new field is.
pub(crate) fn saying_of(change: Change, place: Place, is_required: bool) -> Saying
    ensures { spec.saying_view result ≡ spec.saying_of change place is_required }
{
    match change {
        Change::Removed => {
            hurts_both(
                "removed",
                "the new schema has nothing of this name",
                "keep it, or name what it is now by --rename",
            )
        }
        Change::OtherKind => {
            hurts_both(
                "other_kind",
                "another kind of declaration: code of either schema misreads it",
                "give the new one another name",
            )
        }
        Change::FieldRemoved => removed(place),
        Change::Moved => moved(place),
        Change::TypeChanged => retyped(place),
        Change::RequiredChanged => required(is_required),
        Change::RequiredDeprecated => {
            hurts_old(
                "required_deprecated",
                "deprecated, but old code fails where it is absent",
                "make it optional first, and wait for old readers",
            )
        }
        Change::DefaultChanged => {
            hurts_both(
                "default_changed",
                "another default: code of either schema reads another value where the field is absent",
                "add a new field, and deprecate this one",
            )
        }
        Change::NestedChanged => {
            hurts_both(
                "nested_changed",
                "a buffer of another table: code of either schema misreads it",
                "add a new field, and deprecate this one",
            )
        }
        Change::SizeChanged => {
            hurts_both(
                "size_changed",
                "another size: code of either schema misreads it",
                "declare another struct, and add a field of it",
            )
        }
        Change::NumberTypeChanged => {
            hurts_both(
                "number_type_changed",
                "another integer type: code of either schema misreads it",
                "declare another enum, and add a field of it",
            )
        }
        Change::FlagsChanged => {
            hurts_both(
                "flags_changed",
                "`bit_flags` in one schema alone: its code takes numbers that the other's doesn't",
                "declare another enum, and add a field of it",
            )
        }
        Change::ValueRemoved => {
            hurts_new(
                "value_removed",
                "removed: new code fails at it in old data",
                "keep it",
            )
        }
        Change::ValueAdded => {
            hurts_old(
                "value_added",
                "its number is new: old code fails at it in new data",
                "update readers first",
            )
        }
        Change::MemberRemoved => {
            hurts_new(
                "member_removed",
                "removed: new code fails at it in old data",
                "keep it",
            )
        }
        Change::MemberChanged => {
            hurts_both(
                "member_changed",
                "another type has its tag: code of either schema misreads it",
                "write the tags out",
            )
        }
        Change::MemberAdded => {
            hurts_old(
                "member_added",
                "its tag is new: old code fails at it in new data",
                "update readers first",
            )
        }
        Change::RootChanged => {
            hurts_both(
                "root_changed",
                "another root: code of either schema misreads a buffer of the other",
                "keep the `root_type`",
            )
        }
        Change::IdentifierRemoved => {
            hurts_old(
                "identifier_removed",
                "no identifier any more: old code takes no new buffer for its own",
                "keep it",
            )
        }
        Change::IdentifierChanged => {
            hurts_both(
                "identifier_changed",
                "another identifier: code of either schema takes no buffer of the other for its own",
                "keep it",
            )
        }
        Change::IdentifierAdded => {
            hurts_new(
                "identifier_added",
                "a new identifier: new code takes no old buffer for its own",
                "leave it out",
            )
        }
        Change::Renamed => {
            notes(
                "renamed",
                "another name: code of either schema reads the same",
                "change it in your own code",
            )
        }
        Change::DefaultRespelled => {
            notes(
                "default_respelled",
                "its default is written otherwise: code of either schema reads the same",
                "no code has to change",
            )
        }
    }
}

/// Returns the message of a change of what has this name.
pub(crate) fn message_of(alloc: Global, saying: Saying, name: &[u8]) -> Result<Vec<u8>, AllocError>
    ensures { IfOk result (λ text. text.items ≡ spec.message_of (spec.saying_view saying) name.now) }
{
    let mut text = Vec::from_slice(alloc, saying.label.as_bytes())?;
    text.extend_from_slice(b"`")?;
    text.extend_from_slice(name)?;
    text.extend_from_slice(b"`: ")?;
    text.extend_from_slice(saying.effect.as_bytes())?;
    text.extend_from_slice(b"; ")?;
    text.extend_from_slice(saying.advice.as_bytes())?;
    Ok(text)
}
