//! Vectors: the items of any type, and the count before them.
ghost use Rattle.std.specs.Prelude.{◌≡◌, ◌+◌, ◌*◌, ◌≤◌, ◌^◌, length, map, max, IfOk};
ghost use Rattle.std.specs.List.{AllByRecursion};
ghost use Rattle.planus_back.specs.Promises.{IsPowerOfTwo};
ghost use Rattle.planus_write.specs.Parts.{items_bytes};
ghost use Rattle.planus_write.specs.Preparing.{AllMay, MayStand, PreparesItems, WritesList};
ghost use Rattle.planus_write.specs.Preparing.{WritesPrepared, prepared_list};

use crate::backing::WORD_MASK;
use crate::builder::Builder;
use crate::errors::BuildError;
use crate::offset::{List, Offset};
use crate::traits::{Primitive, VectorWrite, WriteAsPrimitive};
use planus_back::Overwrite;
use std::marker::PhantomData;

#[inline]
pub(crate) fn write_each<P: Primitive, V: WriteAsPrimitive<P>>(
    values: &[V],
    bytes: &mut [u8],
    place: u32,
)
    requires size { length bytes.old ≡ length values.now * P.SIZE }
    requires may { MayStand V.reach P.SIZE place values.now }
    ensures { bytes.new ≡ items_bytes P.SIZE place (map V.encoding values.now) }
{
    let mut at = 0;
    for value in values {
        let (_before, rest) = bytes.split_at_mut(at);
        let (item, _behind) = rest.split_at_mut(P::SIZE);
        value.write(item, place - at as u32);
        at += P::SIZE;
    }
}

#[derive(Drop)]
struct Items<'a, P: Primitive, T: VectorWrite<P>> {
    values: &'a [T::Value],
    _marker: PhantomData<P>,
}

impl<'a, P: Primitive, T: VectorWrite<P>> Overwrite for Items<'a, P, T> {
    ghost fits = { λ items place n. (n ≡ length items.values.now * T.STRIDE)
        × MayStand T.Value.reach T.STRIDE place items.values.now };

    ghost encoding = { λ items place n.
        items_bytes T.STRIDE place (map T.Value.encoding items.values.now) };

    #[inline]
    fn overwrite(&self, place: u32, bytes: &mut [u8]) {
        T::write_values(self.values, bytes, place);
    }
}

fn prepare_items<P: Primitive, T: VectorWrite<P>>(
    builder: &mut Builder,
    items: &[T],
) -> Result<Vec<T::Value>, BuildError>
    requires { AllMay T.may items.now builder.old }
    ensures prepared { PreparesItems T.outcome items.now builder.old (prepared_list result)
        builder.new }
    ensures reached { IfOk result (λ values.
        AllByRecursion (λ value. T.Value.reach value ≤ length builder.new.bytes) values.items) }
{
    let mut values: Vec<T::Value> = Vec::with_capacity(builder.alloc(), items.len())?;
    for item in items {
        match item.prepare(builder) {
            Ok(value) => match values.push(value) {
                Ok(()) => {}
                Err(_) => unreachable!(),
            },
            Err(error) => return Err(error),
        }
    }
    Ok(values)
}

#[inline]
fn items_mask<P: Primitive>() -> usize
    ensures greatest { result + 1 ≡ max P.ALIGNMENT 4 }
    ensures power { IsPowerOfTwo (result + 1) }
    ensures bound { result + 1 ≤ 2 ^ 30 }
{
    P::ALIGNMENT.max(WORD_MASK + 1) - 1
}

pub(crate) fn write_prepared<P: Primitive, T: VectorWrite<P>>(
    builder: &mut Builder,
    values: &[T::Value],
) -> Result<Offset<List<P>>, BuildError>
    requires { AllByRecursion (λ value. T.Value.reach value ≤ length builder.old.bytes) values.now }
    ensures { WritesPrepared P.SIZE P.ALIGNMENT (map T.Value.encoding values.now)
        builder.old result builder.new }
{
    let Some(size) = values.len().checked_mul(T::stride()) else {
        return Err(BuildError::TooLarge);
    };
    let prepared: Items<'_, P, T> = Items {
        values,
        _marker: PhantomData,
    };
    builder.write_over(size, items_mask::<P>(), &prepared)?;
    let place = builder.write_count(values.len() as u32)?;
    Ok(Offset::at(place))
}

pub(crate) fn write_list<P: Primitive, T: VectorWrite<P>>(
    builder: &mut Builder,
    items: &[T],
) -> Result<Offset<List<P>>, BuildError>
    requires { T.all_may items.now builder.old }
    ensures { WritesList T.prepares T.Value.encoding P.SIZE P.ALIGNMENT items.now
        builder.old result builder.new }
{
    if let Some(values) = T::as_prepared(items) {
        return write_prepared::<P, T>(builder, values);
    }
    let values = prepare_items::<P, T>(builder, items)?;
    write_prepared::<P, T>(builder, values.as_slice())
}
