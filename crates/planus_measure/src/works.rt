//! The works: rounds of equal operations.

ghost use Rattle.std.specs.Prelude.{◌≡◌};

use crate::reads::{self, MONSTER, NUMBERS, WEAPON, Walk};
use crate::{lists, monsters, tables};
use planus::{BuildError, Builder, ByteList, Caches, Fill, Offset, Text};
use planus_back::Promises;
use std::alloc::{AllocError, Global};

/// Operations per round.
pub const OPERATIONS: usize = 1000;

const LETTERS: &str = "abcdefghijklmnopqrstuvwxyzabcdefghijklmnopqrstuvwxyz\
     abcdefghijklmnopqrstuvwxyzabcdefghijklmnopqrstuv";

const NO_CACHES: Caches = Caches {
    vtables: false,
    texts: false,
    bytes: false,
    hash_mask: 0,
};

/// One kind of operation. Sizes are in bytes. Unless noted, the builder has room; with caches,
/// equal contents are found.
#[derive(Clone, Copy)]
pub enum Work {
    /// Strings whose sizes cycle from the first number to the second.
    Texts(usize, usize),
    /// Strings of 100 bytes, in a new builder without room.
    GrowingTexts,
    /// Different strings of this size, at least 7.
    NewTexts(usize),
    /// Strings of 20 bytes: a few are frequent, many rare.
    OftenTexts,
    /// A clear, a string and a finish, on a builder with caches that once held this many strings.
    AfterTexts(usize),
    /// Vectors of 64 strings, of 0 to 63 bytes.
    TextLists,
    /// Equal byte vectors of this size.
    ByteLists(usize),
    /// Different byte vectors of this size, at least 7.
    NewByteLists(usize),
    /// Vectors of this many `u32`s.
    NumberLists(usize),
    /// Parts of this size.
    Parts(usize),
    /// Parts of this size, in a new builder without room.
    GrowingParts(usize),
    /// Tables of two `u16`s.
    TwoFields,
    /// Tables of eight `u16`s.
    EightFields,
    /// A clear, a string, a table with it and a number, and a finish.
    Weapons,
    /// The same on a builder that once held this many strings.
    WeaponsAfterTexts(usize),
    /// Tables with a field of each kind.
    Monsters,
    /// A clear, such a table and a finish.
    MonsterMessages,
    /// Requests for padding alone.
    Requests,
    /// A table, a number and a string.
    ReadWeapons,
    /// A table of eight numbers, and this many of them.
    ReadFields(usize),
    /// A table of five fields, with a vector and a union.
    ReadMonsters,
    /// `u32`s of a vector, 16 per operation.
    ReadNumbers(Walk),
    /// Strings of 20 bytes of a vector.
    ReadTexts,
    /// Tables of a vector, with their numbers and strings.
    ReadTables,
    /// Such tables of a union vector.
    ReadUnions,
}

struct Sevens;

impl Fill for Sevens {
    ghost use Rattle.std.specs.Prelude.{ℕ, replicate, ⊤};

    ghost fits = { λ _ place n. ⊤ };

    ghost encoding = { λ _ place n. replicate n 7 };

    #[inline]
    fn fill(&self, _place: u32, bytes: &mut [u8]) {
        bytes.fill(7);
    }
}

#[derive(Drop)]
pub struct Works {
    alloc: Global,
    builder: Box<Builder>,
    caching: Box<Builder>,
    texts: Vec<String>,
    bytes: Vec<u8>,
    numbers: Vec<u32>,
}

fn push_text(alloc: Global, texts: &mut Vec<String>, text: &str) -> Result<(), AllocError> {
    texts.push(String::from_str(alloc, text)?)?;
    Ok(())
}

fn push_texts(
    alloc: Global,
    texts: &mut Vec<String>,
    count: usize,
    least: usize,
    most: usize,
) -> Result<(), AllocError> {
    let mut len = least;
    for _ in 0..count {
        push_text(alloc, texts, LETTERS.get(..len).unwrap_or(""))?;
        len = if len < most { len + 1 } else { least };
    }
    Ok(())
}

fn different_text(alloc: Global, number: usize, letters: &str) -> Result<String, AllocError> {
    let number = number.saturating_add(1000000);
    Ok(format!(in alloc; "{number}{letters}")?)
}

fn push_different_texts(
    alloc: Global,
    texts: &mut Vec<String>,
    count: usize,
    len: usize,
) -> Result<(), AllocError> {
    let letters = LETTERS.get(..len.saturating_sub(7)).unwrap_or("");
    for number in 0..count {
        texts.push(different_text(alloc, number, letters)?)?;
    }
    Ok(())
}

fn push_often_texts(alloc: Global, texts: &mut Vec<String>) -> Result<(), AllocError> {
    let letters = LETTERS.get(..13).unwrap_or("");
    for at in 0..OPERATIONS {
        let rank = at * 389 % OPERATIONS + 1;
        texts.push(different_text(alloc, OPERATIONS / rank, letters)?)?;
    }
    Ok(())
}

fn push_texts_of(alloc: Global, texts: &mut Vec<String>, work: Work) -> Result<(), AllocError> {
    match work {
        Work::Texts(least, most) => push_texts(alloc, texts, OPERATIONS, least, most),
        Work::GrowingTexts => push_texts(alloc, texts, OPERATIONS, 100, 100),
        Work::OftenTexts => push_often_texts(alloc, texts),
        Work::ReadTexts => push_texts(alloc, texts, OPERATIONS, 20, 20),
        Work::TextLists => push_texts(alloc, texts, 64, 0, 63),
        Work::NewTexts(len) | Work::NewByteLists(len) => {
            push_different_texts(alloc, texts, OPERATIONS, len)
        }
        Work::AfterTexts(count) | Work::WeaponsAfterTexts(count) => {
            push_different_texts(alloc, texts, count, 20)
        }
        _ => Ok(()),
    }
}

fn numbers_of(alloc: Global, work: Work) -> Result<Vec<u32>, AllocError> {
    match work {
        Work::NumberLists(len) => equal_numbers(alloc, len),
        Work::ReadNumbers(_) => equal_numbers(alloc, 16 * OPERATIONS),
        _ => Ok(Vec::new(alloc)),
    }
}

fn equal_numbers(alloc: Global, len: usize) -> Result<Vec<u32>, AllocError> {
    vec![in alloc; 7; len]
}

fn bytes_of(alloc: Global, work: Work) -> Result<Vec<u8>, AllocError> {
    match work {
        Work::ByteLists(len) => vec![in alloc; 7; len],
        Work::ReadWeapons => repeated(alloc, &WEAPON),
        Work::ReadFields(_) => repeated(alloc, &NUMBERS),
        Work::ReadMonsters => repeated(alloc, &MONSTER),
        Work::ReadTables => lists::finished_tables(alloc),
        Work::ReadUnions => lists::finished_unions(alloc),
        _ => Ok(Vec::new(alloc)),
    }
}

fn repeated(alloc: Global, bytes: &[u8]) -> Result<Vec<u8>, AllocError> {
    let mut all = Vec::new(alloc);
    for _ in 0..OPERATIONS {
        all.extend_from_slice(bytes)?;
    }
    Ok(all)
}

fn finished_list(
    alloc: Global,
    builder: &mut Builder,
    numbers: &[u32],
) -> Result<Vec<u8>, BuildError> {
    builder.clear();
    Ok(Vec::from_slice(alloc, builder.finish(numbers, None)?)?)
}

fn finished_texts(
    alloc: Global,
    builder: &mut Builder,
    texts: &[String],
) -> Result<Vec<u8>, BuildError> {
    builder.clear();
    let list = builder.create_vector::<Offset<Text>, &[String]>(texts)?;
    Ok(Vec::from_slice(alloc, builder.finish(list, None)?)?)
}

fn write_texts(builder: &mut Builder, texts: &[String]) -> Result<usize, BuildError> {
    builder.clear();
    for text in texts {
        builder.create_string(text.as_str())?;
    }
    Ok(builder.len())
}

fn write_messages(builder: &mut Builder) -> Result<usize, BuildError> {
    let mut sum: usize = 0;
    for _ in 0..OPERATIONS {
        builder.clear();
        sum = sum.wrapping_add(builder.finish("Axe", None)?.len());
    }
    Ok(sum)
}

fn write_text_lists(builder: &mut Builder, texts: &[String]) -> Result<usize, BuildError> {
    builder.clear();
    for _ in 0..OPERATIONS {
        builder.create_vector::<Offset<Text>, &[String]>(texts)?;
    }
    Ok(builder.len())
}

fn write_byte_lists(builder: &mut Builder, bytes: &[u8]) -> Result<usize, BuildError> {
    builder.clear();
    for _ in 0..OPERATIONS {
        builder.create_vector(ByteList(bytes))?;
    }
    Ok(builder.len())
}

fn write_texts_as_bytes(builder: &mut Builder, texts: &[String]) -> Result<usize, BuildError> {
    builder.clear();
    for text in texts {
        builder.create_vector(ByteList(text.as_bytes()))?;
    }
    Ok(builder.len())
}

fn write_number_lists(builder: &mut Builder, numbers: &[u32]) -> Result<usize, BuildError> {
    builder.clear();
    for _ in 0..OPERATIONS {
        builder.create_vector::<u32, &[u32]>(numbers)?;
    }
    Ok(builder.len())
}

fn write_parts(builder: &mut Builder, size: usize) -> Result<usize, BuildError> {
    builder.clear();
    for _ in 0..OPERATIONS {
        builder.write_with(size, 3, &Sevens)?;
    }
    Ok(builder.len())
}

/// Parts of 1 to 8 bytes aligned to 8. Returns the last place.
fn request_padding() -> Option<usize> {
    let mut promises = Promises::new();
    let mut len: usize = 0;
    for part in 0..OPERATIONS {
        let size = part % 8 + 1;
        let (next, padding) = next_padding(promises, len, size)?;
        promises = next;
        len = len.saturating_add(padding).saturating_add(size);
    }
    Some(len)
}

#[inline]
fn next_padding(promises: Promises, len: usize, size: usize) -> Option<(Promises, usize)> {
    if len > 1 << 20 {
        return None;
    }
    promises.request(len, size, 7).ok()
}

fn write_growing_texts(alloc: Global, texts: &[String]) -> Result<usize, BuildError> {
    write_texts(&mut Builder::with_caches(alloc, 0, NO_CACHES)?, texts)
}

fn write_growing_parts(alloc: Global, size: usize) -> Result<usize, BuildError> {
    write_parts(&mut Builder::with_caches(alloc, 0, NO_CACHES)?, size)
}

/// Boxed: a struct of two unboxed builders has a long type, which slows its proofs.
fn builder_of(alloc: Global, room: usize, caches: Caches) -> Result<Box<Builder>, BuildError> {
    match Box::new(alloc, Builder::with_caches(alloc, room, caches)?) {
        Ok(builder) => Ok(builder),
        Err(_) => Err(BuildError::OutOfMemory),
    }
}

impl Works {
    /// Creates a builder without caches and one with them.
    pub fn new(alloc: Global) -> Result<Works, BuildError> {
        Ok(Works {
            alloc,
            builder: builder_of(alloc, 1 << 23, NO_CACHES)?,
            caching: builder_of(alloc, 1 << 23, Caches::all())?,
            texts: Vec::new(alloc),
            bytes: Vec::new(alloc),
            numbers: Vec::new(alloc),
        })
    }

    fn prepare(&mut self, work: Work) -> Result<(), BuildError> {
        self.texts.clear();
        push_texts_of(self.alloc, &mut self.texts, work)?;
        self.numbers = numbers_of(self.alloc, work)?;
        self.bytes = bytes_of(self.alloc, work)?;
        match work {
            Work::AfterTexts(_) | Work::WeaponsAfterTexts(_) => self.write_before(),
            Work::ReadNumbers(_) => self.finish_numbers(),
            Work::ReadTexts => self.finish_texts(),
            _ => Ok(()),
        }
    }

    fn write_before(&mut self) -> Result<(), BuildError> {
        self.caching = builder_of(self.alloc, 0, Caches::all())?;
        write_texts(&mut self.builder, self.texts.as_slice())?;
        write_texts(&mut self.caching, self.texts.as_slice())?;
        Ok(())
    }

    fn finish_numbers(&mut self) -> Result<(), BuildError> {
        self.bytes = finished_list(self.alloc, &mut self.builder, &self.numbers)?;
        Ok(())
    }

    fn finish_texts(&mut self) -> Result<(), BuildError> {
        self.bytes = finished_texts(self.alloc, &mut self.builder, self.texts.as_slice())?;
        Ok(())
    }

    /// Prepares a work and runs its first [`Works::round`].
    pub fn first_round(&mut self, work: Work, with_caches: bool) -> Option<usize> {
        self.prepare(work).ok()?;
        self.round(work, with_caches)
    }

    /// Runs one round with or without caches. Returns the bytes written or the sum read, or `None`
    /// if a call failed.
    pub fn round(&mut self, work: Work, with_caches: bool) -> Option<usize> {
        let texts = self.texts.as_slice();
        let bytes = self.bytes.as_slice();
        let numbers = self.numbers.as_slice();
        if with_caches {
            round_by(&mut self.caching, self.alloc, texts, bytes, numbers, work)
        } else {
            round_by(&mut self.builder, self.alloc, texts, bytes, numbers, work)
        }
    }
}

fn round_by(
    builder: &mut Builder,
    alloc: Global,
    texts: &[String],
    bytes: &[u8],
    numbers: &[u32],
    work: Work,
) -> Option<usize> {
    match work {
        Work::Texts(_, _) | Work::NewTexts(_) | Work::OftenTexts => {
            write_texts(builder, texts).ok()
        }
        Work::GrowingTexts => write_growing_texts(alloc, texts).ok(),
        Work::AfterTexts(_) => write_messages(builder).ok(),
        Work::TextLists => write_text_lists(builder, texts).ok(),
        Work::ByteLists(_) => write_byte_lists(builder, bytes).ok(),
        Work::NewByteLists(_) => write_texts_as_bytes(builder, texts).ok(),
        Work::NumberLists(_) => write_number_lists(builder, numbers).ok(),
        Work::Parts(size) => write_parts(builder, size).ok(),
        Work::GrowingParts(size) => write_growing_parts(alloc, size).ok(),
        Work::TwoFields => tables::write_two(builder).ok(),
        Work::EightFields => tables::write_eight(builder).ok(),
        Work::Weapons | Work::WeaponsAfterTexts(_) => tables::write_weapons(builder).ok(),
        Work::Monsters => monsters::write_monsters(builder).ok(),
        Work::MonsterMessages => monsters::write_monster_messages(builder).ok(),
        Work::Requests => request_padding(),
        Work::ReadWeapons => reads::weapons(bytes).ok(),
        Work::ReadFields(count) => reads::fields(bytes, count).ok(),
        Work::ReadMonsters => reads::monsters(bytes).ok(),
        Work::ReadNumbers(walk) => reads::walked(bytes, walk).ok(),
        Work::ReadTexts => reads::texts(bytes).ok(),
        Work::ReadTables => lists::tables(bytes).ok(),
        Work::ReadUnions => lists::unions(bytes).ok(),
    }
}
