//! The parts of a value.

ghost use Rattle.std.specs.Prelude.{◌≡◌, map};
ghost use Rattle.std.specs.Option.{option_map};
ghost use Rattle.planus_json_syntax.specs.Values.{json_view, member_view, value_view};
ghost use Rattle.planus_pack.specs.Parts as spec;

use planus_json_syntax::{Json, Member, Value};

/// Returns a word, or what a string says.
pub(crate) fn word_of(value: &Value) -> Option<&str>
    ensures { option_map (λ w. w.now) result ≡ spec.word_of (value_view value.now) }
{
    match value {
        Value::Word(text) | Value::Text(text) => Some(text.as_str()),
        _ => None,
    }
}

pub(crate) fn text_of(value: &Value) -> Option<&str>
    ensures { option_map (λ w. w.now) result ≡ spec.text_of (value_view value.now) }
{
    match value {
        Value::Text(text) => Some(text.as_str()),
        _ => None,
    }
}

pub(crate) fn items_of(value: &Value) -> Option<&[Json]>
    ensures { option_map (λ js. map json_view js.now) result
        ≡ spec.items_of (value_view value.now) }
{
    match value {
        Value::List(items) => Some(items.as_slice()),
        _ => None,
    }
}

pub(crate) fn members_of(value: &Value) -> Option<&[Member]>
    ensures { option_map (λ ms. map member_view ms.now) result
        ≡ spec.members_of (value_view value.now) }
{
    match value {
        Value::Object(members) => Some(members.as_slice()),
        _ => None,
    }
}

pub(crate) fn is_null(value: &Value) -> bool
    ensures { result ≡ spec.is_null (value_view value.now) }
{
    match value {
        Value::Word(word) => word.as_bytes() == b"null".as_slice(),
        _ => false,
    }
}

/// Returns the value of the first member with this key that isn't `null`.
pub(crate) fn given<'a>(key: &[u8], members: &'a [Member]) -> Option<&'a Json>
    ensures { option_map (λ j. json_view j.now) result
        ≡ spec.given key.now (map member_view members.now) }
{
    let mut rest = members;
    'members: while let Some((first, after)) = rest.split_first() {
        if first.key.as_bytes() == key && !is_null(&first.value.value) {
            return Some(&first.value);
        }
        rest = after;
    }
    None
}

/// Returns whether one of the members before this one gave the same.
pub(crate) fn stands_again(member: &Member, members: &[Member]) -> bool
    ensures { result
        ≡ spec.stands_again (member_view member.now) (map member_view members.now) }
{
    match given(member.key.as_bytes(), members) {
        Some(first) => first.at != member.value.at,
        None => true,
    }
}
