//! Union vectors: references and tags, each a vector with its count.
ghost use Rattle.std.specs.Prelude.{◌≡◌, ◌≤◌, length, IfOk};
ghost use Rattle.std.specs.List.{AllByRecursion};
ghost use Rattle.planus_write.specs.Preparing.{AllMay};
ghost use Rattle.planus_write.specs.Unions.{PreparesUnions, WritesTags, WritesUnionVector};

use crate::backing::WORD_MASK;
use crate::builder::Builder;
use crate::byte_lists::Copied;
use crate::errors::BuildError;
use crate::lists::write_prepared;
use crate::offset::{List, Offset};
use crate::traits::WriteAsUnion;
use crate::union_vector_offset::UnionVectorOffset;

#[derive(Drop)]
struct PreparedUnions {
    tags: Vec<u8>,
    values: Vec<Offset<()>>,
}

fn prepare_unions<T, U: WriteAsUnion<T>>(
    builder: &mut Builder,
    items: &[U],
) -> Result<PreparedUnions, BuildError>
    requires { AllMay U.may items.now builder.old }
    ensures prepared { PreparesUnions U.outcome items.now builder.old result builder.new }
    ensures reached { IfOk result (λ unions. AllByRecursion
        (λ value. value.distance ≤ length builder.new.bytes) unions.values.items) }
{
    let mut tags: Vec<u8> = Vec::with_capacity(builder.alloc(), items.len())?;
    let mut values: Vec<Offset<()>> = Vec::with_capacity(builder.alloc(), items.len())?;
    for item in items {
        match item.prepare(builder) {
            Ok(prepared) => match (tags.push(prepared.tag()), values.push(prepared.offset())) {
                (Ok(()), Ok(())) => {}
                _ => unreachable!(),
            },
            Err(error) => return Err(error),
        }
    }
    Ok(PreparedUnions { tags, values })
}

fn write_tags(builder: &mut Builder, tags: &[u8]) -> Result<Offset<List<u8>>, BuildError>
    ensures { WritesTags tags.now builder.old result builder.new }
{
    builder.write_over(tags.len(), WORD_MASK, &Copied(tags))?;
    let place = builder.write_count(tags.len() as u32)?;
    Ok(Offset::at(place))
}

pub(crate) fn write_union_vector<T, U: WriteAsUnion<T>>(
    builder: &mut Builder,
    items: &[U],
) -> Result<UnionVectorOffset<T>, BuildError>
    requires { AllMay U.may items.now builder.old }
    ensures { WritesUnionVector U.outcome items.now builder.old result builder.new }
{
    let unions = prepare_unions::<T, U>(builder, items)?;
    let values = write_prepared::<Offset<()>, Offset<()>>(builder, unions.values.as_slice())?;
    let tags = write_tags(builder, unions.tags.as_slice())?;
    Ok(UnionVectorOffset::new(tags, values))
}
