//! Sizes and alignments of declarations.

ghost use Rattle.std.specs.Prelude.{◌≡◌, map, Some, slice_get};
ghost use Rattle.std.specs.Option.{option_map};
ghost use Rattle.planus_schema.specs.Layouts as spec;

use crate::schema::{Base, Body, Declared};

/// A size and an alignment in bytes.
#[derive(Clone, Copy)]
pub struct Measure {
    pub size: usize,
    pub alignment: usize,
}

fn body_measure(body: &Body) -> Option<Measure>
    ensures { result ≡ spec.measure_of_body (Some body.now) }
{
    match body {
        Body::Struct(body) => Some(Measure {
            size: body.size,
            alignment: body.alignment,
        }),
        Body::Enum(body) => Some(Measure {
            size: body.scalar.size(),
            alignment: body.scalar.size(),
        }),
        _ => None,
    }
}

fn declared_at(bodies: &[Declared], index: usize) -> Option<&Declared>
    ensures { option_map (λ d. d.now) result ≡ slice_get bodies.now index }
{
    bodies.get(index)
}

fn measure_at(bodies: &[Declared], index: usize) -> Option<Measure>
    ensures { result ≡ spec.measure_of_body (slice_get (map spec.body_in bodies.now) index) }
{
    match declared_at(bodies, index) {
        Some(declared) => body_measure(&declared.body),
        None => None,
    }
}

/// Returns the size and alignment of a value, if a struct can hold it.
pub fn measure_of(bodies: &[Declared], base: Base) -> Option<Measure>
    ensures { result ≡ spec.measure_in (map spec.body_in bodies.now) base }
{
    match base {
        Base::Scalar(scalar) => Some(Measure {
            size: scalar.size(),
            alignment: scalar.size(),
        }),
        Base::Enum(index) | Base::Struct(index) => measure_at(bodies, index),
        _ => None,
    }
}
