//! Attributes in parentheses.

ghost use Rattle.std.specs.Prelude.{◌≡◌, map};
ghost use Rattle.std.specs.Option.{option_map};
ghost use Rattle.planus_syntax.specs.Values.{attribute_of};
ghost use Rattle.planus_resolve.specs.Names as spec;

use planus_syntax::{Attribute, label_is};

pub(crate) fn setting<'a>(attributes: &'a [Attribute], word: &[u8]) -> Option<&'a Attribute>
    ensures said { option_map (λ a. attribute_of a.now) result
        ≡ spec.setting word.now (map attribute_of attributes.now) }
    ensures place { option_map (λ a. a.now) result ≡ spec.attribute_named word.now attributes.now }
{
    let mut rest = attributes;
    'attributes: while let Some((first, after)) = rest.split_first() {
        if label_is(&first.label, word) {
            return Some(first);
        }
        rest = after;
    }
    None
}

pub(crate) fn has(attributes: &[Attribute], word: &[u8]) -> bool
    ensures { result ≡ spec.has word.now (map attribute_of attributes.now) }
{
    setting(attributes, word).is_some()
}
