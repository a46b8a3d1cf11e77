//! Bodies of [`Plain`](crate::Plain) for structs and enums.

/// Writes the fields of a struct in the body of [`Plain::put`](crate::Plain::put), each by its name
/// and size in bytes, that of an array in brackets; `_` is padding.
///
/// ```text
/// put_fields!(self, bytes; lat: 4, lon: 4, marks: [6], alt: 2, _: 2);
/// ```
#[macro_export]
macro_rules! put_fields {
    ($value:ident, $bytes:ident; $(,)?) => {};
    ($value:ident, $bytes:ident; _: $size:literal $(, $($rest:tt)*)?) => {
        let (zeros, $bytes) = $bytes.split_at_mut($size);
        zeros.copy_from_slice(&[0; $size]);
        $crate::put_fields!($value, $bytes; $($($rest)*)?)
    };
    ($value:ident, $bytes:ident; $field:ident: $size:literal $(, $($rest:tt)*)?) => {
        let (field, $bytes) = $bytes.split_at_mut($size);
        $crate::Plain::put(&$value.$field, field);
        $crate::put_fields!($value, $bytes; $($($rest)*)?)
    };
    ($value:ident, $bytes:ident; $field:ident: [$size:literal] $(, $($rest:tt)*)?) => {
        let (field, $bytes) = $bytes.split_at_mut($size);
        $crate::put_array(&$value.$field, field);
        $crate::put_fields!($value, $bytes; $($($rest)*)?)
    };
}

/// Returns a struct in the body of [`Plain::read`](crate::Plain::read): its first field, and the
/// others with their offsets in bytes; an array, or an array's offset, stands in brackets.
///
/// ```text
/// read_fields!(Pos, buffer, offset; lat, lon: 4, marks: [8], alt: 14)
/// read_fields!(Marks, buffer, offset; [marks], alt: 6)
/// ```
#[macro_export]
macro_rules! read_fields {
    (@field $buffer:ident, $offset:ident; [$at:literal]) => {
        $crate::read_array($buffer, $offset + $at)?
    };
    (@field $buffer:ident, $offset:ident; $at:literal) => {
        $crate::Plain::read($buffer, $offset + $at)?
    };
    (
        $name:ident, $buffer:ident, $offset:ident;
        [$first:ident] $(, $field:ident: $at:tt)* $(,)?
    ) => {
        Ok($name {
            $first: $crate::read_array($buffer, $offset)?,
            $($field: $crate::read_fields!(@field $buffer, $offset; $at),)*
        })
    };
    (
        $name:ident, $buffer:ident, $offset:ident;
        $first:ident $(, $field:ident: $at:tt)* $(,)?
    ) => {
        Ok($name {
            $first: $crate::Plain::read($buffer, $offset)?,
            $($field: $crate::read_fields!(@field $buffer, $offset; $at),)*
        })
    };
}

/// Returns the variant whose number is at the offset, in the body of
/// [`Plain::read`](crate::Plain::read).
///
/// ```text
/// read_variant!(u8, buffer, offset; Kind::Car, Kind::Bike, Kind::Ship)
/// ```
#[macro_export]
macro_rules! read_variant {
    ($type:ty, $buffer:ident, $offset:ident; $($variant:path),* $(,)?) => {{
        let number = <$type as $crate::Plain>::read($buffer, $offset)?;
        $(if number == $variant as $type {
            return Ok($variant);
        })*
        Err($crate::errors::ErrorKind::UnknownEnumTag {
            source: $crate::errors::UnknownEnumTagKind { tag: number as i128 },
        })
    }};
}
