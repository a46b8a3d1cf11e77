//! What `fields` and `variant` write. These functions are proved, and nothing calls them.
ghost use Rattle.std.specs.Prelude.{◌≡◌};

use planus::{FieldAt, TrailingField, UnionAt, UnionVectorAt, Variant, fields, variant};
use planus_write::{Offset, UnionOffset, UnionVectorOffset};

type Two<const A: usize, PA, const B: usize, PB> = (FieldAt<A, PA, PA>, FieldAt<B, PB, PB>);

type Four = (Two<0, u64, 1, u32>, Two<2, u32, 3, u16>);

type FourKinds = (
    (FieldAt<4, u16, u16>, TrailingField<5, u8, u8>),
    (
        UnionAt<6, 7, (), UnionOffset<()>>,
        UnionVectorAt<8, 9, (), UnionVectorOffset<()>>,
    ),
);

fn nine_lines(
    first: u64,
    second: u32,
    third: u32,
    fourth: u16,
    fifth: u16,
    trailing: u8,
    union: UnionOffset<()>,
    unions: UnionVectorOffset<()>,
    ninth: u8,
) -> ((Four, FourKinds), FieldAt<10, u8, u8>)
    ensures first { result.0.0.0.0.value ≡ first }
    ensures second { result.0.0.0.1.value ≡ second }
    ensures third { result.0.0.1.0.value ≡ third }
    ensures fourth { result.0.0.1.1.value ≡ fourth }
    ensures fifth { result.0.1.0.0.value ≡ fifth }
    ensures trailing { result.0.1.0.1.value ≡ trailing }
    ensures union { result.0.1.1.0.value ≡ union }
    ensures unions { result.0.1.1.1.value ≡ unions }
    ensures ninth { result.1.value ≡ ninth }
{
    fields![
        0: u64 = first,
        1: u32 = second,
        2: u32 = third,
        3: u16 = fourth,
        4: u16 = fifth,
        5: last u8 = trailing,
        (6, 7): union () = union,
        (8, 9): unions () = unions,
        10: u8 = ninth,
    ]
}

fn one_line(value: u16) -> FieldAt<4, u16, u16>
    ensures { result.value ≡ value }
{
    fields![4: u16 = value]
}

fn no_line() {
    fields![]
}

fn one_variant(value: Offset<()>) -> Variant<3, (), Offset<()>>
    ensures { result.value ≡ value }
{
    variant!(3: () = value)
}
