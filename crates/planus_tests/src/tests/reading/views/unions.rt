pub mod calls;
mod rows;

ghost use Rattle.std.specs.Prelude.{◌≡◌, ⊤, codes};

use planus_read::errors::ErrorKind;
use planus_read::{SliceWithStartOffset, TableRead, TableReadUnion, VectorReadUnion};
use planus_unions::UnionVector;

// With tag 1 a string, with tag 2 a number of four bytes.
#[derive(Clone, Copy, PartialEq, Debug)]
enum Choice<'buf> {
    Text(&'buf str),
    Number(u32),
}

impl<'buf> TableReadUnion<'buf> for Choice<'buf> {
    ghost reads = { λ S start tag f r. ⊤ };

    fn from_buffer(
        buffer: SliceWithStartOffset<'buf>,
        tag: u8,
        offset: usize,
    ) -> Result<Choice<'buf>, ErrorKind> {
        match tag {
            1 => Ok(Choice::Text(TableRead::from_buffer(buffer, offset)?)),
            2 => Ok(Choice::Number(TableRead::from_buffer(buffer, offset)?)),
            _ => Err(ErrorKind::UnknownUnionTag { tag }),
        }
    }
}

impl<'buf> VectorReadUnion<'buf> for Choice<'buf> {
    ghost name = { codes "[Choice]" };

    fn vector_name() -> &'static str
        ensures { result.now ≡ codes "[Choice]" }
    {
        "[Choice]"
    }
}

fn unions<'a, T>(
    bytes: &'a [u8],
    tags: usize,
    values: usize,
) -> Result<UnionVector<'a, T>, ErrorKind> {
    let whole = SliceWithStartOffset::new(bytes, 0);
    planus_read::TableReadUnionVector::from_buffer(whole, tags, values)
}
