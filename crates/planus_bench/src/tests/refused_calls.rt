//! Calls on a builder that allocate several times.

ghost use Rattle.std.specs.Prelude.{◌≡◌, ◌≤◌, length, IsTrue, codes};

use super::kinds::slot_has;
use super::parts::put;
use planus::table_reader::Table;
use planus::{
    BuildError, Builder, Error, Offset, SliceWithStartOffset, TableKind, TableRead, TableWriter,
    Text, UnionOffset, Vector, create_table, fields,
};
use std::alloc::Global;

#[derive(Clone, Copy)]
pub enum Call {
    List,
    ListBehind,
    Unions,
    Weapon,
}

#[derive(Clone, Copy)]
pub enum CallOutcome {
    NotBegun,
    Made {
        len: usize,
    },
    /// None failed when the call was made again.
    MadeAgain {
        /// The length after the error.
        refused: usize,
        len: usize,
    },
    Wrong,
}

struct Weapon;

impl TableKind for Weapon {
    type Writer = TableWriter<8>;

    ghost name = { codes "[Weapon]" };

    fn name() -> &'static str
        ensures { result.now ≡ codes "[Weapon]" }
    {
        "[Weapon]"
    }
}

#[derive(Clone, Copy)]
pub struct Written {
    value: Offset<()>,
    tags: Option<Offset<()>>,
}

const TEXTS: &[u8] = b"\x01\0\0\0B\0\0\0\x01\0\0\0A\0";

/// 10 bytes of a vector, and before that its strings.
const BEHIND: &[u8] = b"\x01\0\0\0B\0\0\0\x01\0\0\0A\0xy\x03\0\0\0Axe\0";

fn has(builder: &Builder, distance: u32) -> bool
    ensures { IsTrue result → distance ≤ length builder.now.bytes }
{
    distance as usize <= builder.len()
}

fn write_texts(builder: &mut Builder) -> Result<[Offset<Text>; 2], BuildError> {
    Ok([builder.create_string("A")?, builder.create_string("B")?])
}

fn write_list(builder: &mut Builder) -> Result<Written, BuildError> {
    let list = builder.create_vector::<Offset<Text>, &[&str]>(&["A", "B"])?;
    Ok(Written {
        value: list.downcast(),
        tags: None,
    })
}

fn write_unions_of(
    builder: &mut Builder,
    first: UnionOffset<()>,
    second: UnionOffset<()>,
) -> Result<Written, BuildError> {
    if !has(builder, first.offset().distance()) || !has(builder, second.offset().distance()) {
        return Err(BuildError::TooLarge);
    }
    match builder.create_union_vector([first, second]) {
        Ok(unions) => Ok(Written {
            value: unions.values_offset().downcast(),
            tags: Some(unions.tags_offset().downcast()),
        }),
        Err(error) => Err(error),
    }
}

fn write_unions(builder: &mut Builder) -> Result<Written, BuildError> {
    let [a, b] = write_texts(builder)?;
    let first = UnionOffset::new(1, a.downcast());
    write_unions_of(builder, first, UnionOffset::new(2, b.downcast()))
}

fn write_weapon(builder: &mut Builder) -> Result<Written, BuildError> {
    let fields = fields![0: Offset<Text> = "Axe", 1: i16 = 24i16];
    let weapon = create_table::<Weapon, _>(builder, fields)?;
    Ok(Written {
        value: weapon.downcast(),
        tags: None,
    })
}

pub fn prepare(builder: &mut Builder, call: Call) -> Result<(), BuildError> {
    match call {
        Call::Unions => {
            let [_a, _b] = write_texts(builder)?;
            Ok(())
        }
        Call::ListBehind => {
            builder.create_string("Axe")?;
            put(builder, b"xy", 1)
        }
        _ => Ok(()),
    }
}

pub fn make(builder: &mut Builder, call: Call) -> Result<Written, BuildError> {
    match call {
        Call::List | Call::ListBehind => write_list(builder),
        Call::Unions => write_unions(builder),
        Call::Weapon => write_weapon(builder),
    }
}

fn two_texts_are_read(bytes: &[u8]) -> bool {
    let whole = SliceWithStartOffset::new(bytes, 0);
    match <Vector<'_, Result<&str, Error>> as TableRead<'_>>::from_buffer(whole, 0) {
        Ok(texts) => {
            texts.len() == 2
                && matches!(texts.get(0), Some(Ok("A")))
                && matches!(texts.get(1), Some(Ok("B")))
        }
        Err(_) => false,
    }
}

fn tags_are_read(bytes: &[u8]) -> bool {
    let whole = SliceWithStartOffset::new(bytes, 0);
    matches!(<&[u8] as TableRead<'_>>::from_buffer(whole, 0), Ok([1, 2]))
}

pub fn weapon_is_read(bytes: &[u8]) -> bool {
    match Table::from_buffer(SliceWithStartOffset::new(bytes, 0), 0) {
        Ok(weapon) => { slot_has(weapon, 0, Some("Axe")) && slot_has(weapon, 1, Some(24i16)) }
        Err(_) => false,
    }
}

fn finish_is_read(builder: &mut Builder, root: Offset<()>, call: Call, tags: bool) -> bool {
    if !has(builder, root.distance()) {
        return false;
    }
    match builder.finish(root, None) {
        Ok(bytes) => match call {
            Call::Weapon => weapon_is_read(bytes),
            _ if tags => tags_are_read(bytes),
            _ => two_texts_are_read(bytes),
        },
        Err(_) => false,
    }
}

fn reads_back(builder: &mut Builder, call: Call, written: Written) -> bool {
    finish_is_read(builder, written.value, call, false)
        && match written.tags {
            Some(tags) => finish_is_read(builder, tags, call, true),
            None => true,
        }
        && match call {
            Call::ListBehind => axe_is_read(builder),
            _ => true,
        }
}

fn text_stands(builder: &mut Builder, letters: &str, serialized: &[u8]) -> bool {
    match builder.create_string(letters) {
        Ok(text) => match builder.len().checked_sub(text.distance() as usize) {
            Some(at) => match builder.as_slice().get(at..) {
                Some(rest) => rest.starts_with(serialized),
                None => false,
            },
            None => false,
        },
        Err(_) => false,
    }
}

fn axe_stands(builder: &mut Builder) -> bool {
    text_stands(builder, "Axe", b"\x03\0\0\0Axe\0")
}

fn a_and_b_stand(builder: &mut Builder) -> bool {
    text_stands(builder, "A", b"\x01\0\0\0A\0") && text_stands(builder, "B", b"\x01\0\0\0B\0")
}

fn texts_stand(builder: &mut Builder, call: Call) -> bool {
    match call {
        Call::Weapon => axe_stands(builder),
        Call::ListBehind => axe_stands(builder) && a_and_b_stand(builder),
        _ => a_and_b_stand(builder),
    }
}

fn is_behind(bytes: &[u8]) -> bool {
    bytes.ends_with(BEHIND) || BEHIND.ends_with(bytes) && bytes.len() >= 10
}

fn keeps_what_was_there(builder: &Builder, call: Call) -> bool {
    match call {
        Call::Unions => builder.as_slice().ends_with(TEXTS),
        Call::ListBehind => is_behind(builder.as_slice()),
        _ => true,
    }
}

fn axe_is_read(builder: &mut Builder) -> bool {
    match builder.finish("Axe", None) {
        Ok(bytes) => {
            let whole = SliceWithStartOffset::new(bytes, 0);
            matches!(<&str as TableRead<'_>>::from_buffer(whole, 0), Ok("Axe"))
        }
        Err(_) => false,
    }
}

pub fn make_again(builder: &mut Builder, call: Call) -> CallOutcome {
    let refused = builder.len();
    if !keeps_what_was_there(builder, call) || !texts_stand(builder, call) {
        return CallOutcome::Wrong;
    }
    match make(builder, call) {
        Ok(written) => {
            let len = builder.len();
            if !reads_back(builder, call, written) {
                return CallOutcome::Wrong;
            }
            CallOutcome::MadeAgain { refused, len }
        }
        Err(_) => CallOutcome::Wrong,
    }
}

fn made(builder: &mut Builder, call: Call, written: Written) -> CallOutcome {
    let len = builder.len();
    if !reads_back(builder, call, written) {
        return CallOutcome::Wrong;
    }
    CallOutcome::Made { len }
}

fn outcome_in(builder: &mut Builder, call: Call) -> CallOutcome {
    if prepare(builder, call).is_err() {
        return CallOutcome::NotBegun;
    }
    match make(builder, call) {
        Ok(written) => made(builder, call, written),
        Err(BuildError::OutOfMemory) => make_again(builder, call),
        Err(BuildError::TooLarge) => CallOutcome::Wrong,
    }
}

pub fn outcome_of(alloc: Global, call: Call) -> CallOutcome {
    match Builder::new(alloc) {
        Ok(mut builder) => outcome_in(&mut builder, call),
        Err(_) => CallOutcome::NotBegun,
    }
}
