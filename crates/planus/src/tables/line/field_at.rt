//! One field of a table, in a slot.

use std::marker::PhantomData;

/// A value for a slot, encoded as a `P`. [`fields`](crate::fields) writes lists of these.
#[derive(Drop)]
pub struct FieldAt<const SLOT: usize, P, V> {
    /// The value that is written.
    pub value: V,
    pub _marker: PhantomData<P>,
}

/// Lists the fields of a table, each in one of these forms:
///
/// - `SLOT: KIND = VALUE`, a value encoded as the type `KIND`
/// - `SLOT: last KIND = VALUE`, a [`TrailingField`](crate::TrailingField)
/// - `(TAG, VALUE): union KIND = VALUE`, a union
/// - `(TAGS, VALUES): unions KIND = VALUE`, a union vector
/// - `group VALUE`, the lines of a [`FieldGroup`](crate::FieldGroup)
#[macro_export]
macro_rules! fields {
    (@at $slot:literal, $kind:ty, $value:expr) => {
        $crate::FieldAt::<$slot, $kind, _> {
            value: $value,
            _marker: std::marker::PhantomData,
        }
    };
    // Four fields at once where there are as many, since a macro may take some 100 steps.
    (@lines [$($lines:tt)*]) => { $crate::fields!(@pairs [] $($lines)*) };
    (@lines [$($lines:tt)*]
        $slot:literal: $kind:ty = $value:expr,
        $slot2:literal: $kind2:ty = $value2:expr,
        $slot3:literal: $kind3:ty = $value3:expr,
        $slot4:literal: $kind4:ty = $value4:expr $(, $($rest:tt)*)?) => {
        $crate::fields!(@lines [$($lines)*
            ($crate::fields!(@at $slot, $kind, $value))
            ($crate::fields!(@at $slot2, $kind2, $value2))
            ($crate::fields!(@at $slot3, $kind3, $value3))
            ($crate::fields!(@at $slot4, $kind4, $value4))
        ] $($($rest)*)?)
    };
    (@lines [$($lines:tt)*] $slot:literal: $kind:ty = $value:expr $(, $($rest:tt)*)?) => {
        $crate::fields!(@lines [$($lines)*
            ($crate::fields!(@at $slot, $kind, $value))
        ] $($($rest)*)?)
    };
    (@lines [$($lines:tt)*] $slot:literal: last $kind:ty = $value:expr $(, $($rest:tt)*)?) => {
        $crate::fields!(@lines [$($lines)* (
            $crate::TrailingField::<$slot, $kind, _> {
                value: $value,
                _marker: std::marker::PhantomData,
            }
        )] $($($rest)*)?)
    };
    (@lines [$($lines:tt)*]
        ($tag:literal, $slot:literal): union $kind:ty = $value:expr $(, $($rest:tt)*)?) => {
        $crate::fields!(@lines [$($lines)* (
            $crate::UnionAt::<$tag, $slot, $kind, _> {
                value: $value,
                _marker: std::marker::PhantomData,
            }
        )] $($($rest)*)?)
    };
    (@lines [$($lines:tt)*]
        ($tags:literal, $slot:literal): unions $kind:ty = $value:expr $(, $($rest:tt)*)?) => {
        $crate::fields!(@lines [$($lines)* (
            $crate::UnionVectorAt::<$tags, $slot, $kind, _> {
                value: $value,
                _marker: std::marker::PhantomData,
            }
        )] $($($rest)*)?)
    };
    (@lines [$($lines:tt)*] group $value:expr $(, $($rest:tt)*)?) => {
        $crate::fields!(@lines [$($lines)* ($crate::Group { value: $value })] $($($rest)*)?)
    };
    (@pairs []) => { () };
    (@pairs [] $only:tt) => { $only };
    (@pairs [$($pairs:tt)*]) => { $crate::fields!(@pairs [] $($pairs)*) };
    (@pairs [$($pairs:tt)*] $last:tt) => { $crate::fields!(@pairs [] $($pairs)* $last) };
    (@pairs [$($pairs:tt)*]
        $a:tt $b:tt $c:tt $d:tt $e:tt $f:tt $g:tt $h:tt $($rest:tt)*) => {
        $crate::fields!(@pairs [$($pairs)* ($a, $b) ($c, $d) ($e, $f) ($g, $h)] $($rest)*)
    };
    (@pairs [$($pairs:tt)*] $a:tt $b:tt $($rest:tt)*) => {
        $crate::fields!(@pairs [$($pairs)* ($a, $b)] $($rest)*)
    };
    ($($lines:tt)*) => { $crate::fields!(@lines [] $($lines)*) };
}
