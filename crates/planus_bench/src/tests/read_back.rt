//! Finished bytes, read back from the root down.

use super::kinds::position;
use planus::table_reader::Table;
use planus::{
    Field, FieldValue, Finished, Place, SliceWithStartOffset, Step, TableRead, Vector, VectorRead,
    read_size_prefixed,
};
use std::alloc::Global;
use std::test::Fail;

#[derive(Clone, Copy)]
struct Value<'a> {
    step: usize,
    place: Place<'a>,
}

fn numbers_are<'a, T: VectorRead<'a> + Into<u64> + Drop>(
    list: Vector<'a, T>,
    numbers: &[u64],
) -> bool {
    let mut wanted = numbers.iter();
    for item in list {
        match wanted.next() {
            Some(number) if item.into() == *number => {}
            _ => return false,
        }
    }
    list.len() == numbers.len()
}

fn has_text(place: Place<'_>, text: &str) -> Result<bool, Fail> {
    Ok(place.read::<&str>()? == text)
}

fn has_bytes(place: Place<'_>, bytes: &[u8]) -> Result<bool, Fail> {
    Ok(place.read::<&[u8]>()? == bytes)
}

fn has_numbers(place: Place<'_>, width: u8, numbers: &[u64]) -> Result<bool, Fail> {
    match width {
        2 => Ok(numbers_are(place.read::<Vector<'_, u16>>()?, numbers)),
        4 => Ok(numbers_are(place.read::<Vector<'_, u32>>()?, numbers)),
        _ => Ok(numbers_are(place.read::<Vector<'_, u64>>()?, numbers)),
    }
}

fn has_number(place: Place<'_>, width: u8, number: u64) -> Result<bool, Fail> {
    let read = match width {
        1 => u64::from(place.read::<u8>()?),
        2 => u64::from(place.read::<u16>()?),
        4 => u64::from(place.read::<u32>()?),
        _ => place.read::<u64>()?,
    };
    Ok(read == number)
}

fn has_tags(place: Place<'_>, unions: &[(u8, usize)]) -> Result<bool, Fail> {
    let tags = place.read::<&[u8]>()?;
    for (tag, (want, _)) in tags.iter().zip(unions.iter()) {
        if *tag != *want {
            return Ok(false);
        }
    }
    Ok(tags.len() == unions.len())
}

#[derive(Drop)]
struct Reading<'a> {
    steps: &'a [Step],
    finished: &'a Finished,
    later: Vec<Value<'a>>,
}

impl<'a> Reading<'a> {
    fn distance(&self, place: Place<'a>) -> Result<usize, Fail> {
        let target = position(place).wrapping_add(place.read::<u32>()? as usize);
        Ok(self.finished.bytes.len().wrapping_sub(target))
    }

    // The bytes of a struct, which stand by themselves.
    fn has_struct(&self, place: Place<'a>, bytes: &[u8]) -> Result<bool, Fail> {
        let distance = self.distance(place)?;
        let begin = self.finished.bytes.len().wrapping_sub(distance);
        let end = begin.wrapping_add(bytes.len());
        Ok(self.finished.bytes.as_slice().get(begin..end) == Some(bytes))
    }

    // The bytes of a struct in a table.
    fn has_part(&self, place: Place<'a>, bytes: &[u8]) -> bool {
        let begin = position(place);
        let end = begin.wrapping_add(bytes.len());
        self.finished.bytes.as_slice().get(begin..end) == Some(bytes)
    }

    // The count of a vector's values, and their bytes.
    fn has_values(&self, place: Place<'a>, size: usize, bytes: &[u8]) -> Result<bool, Fail> {
        let count = bytes.len().checked_div(size).ok_or("no size")?;
        let list = place.read::<&'a [u8]>()?;
        if list.len() != count {
            return Ok(false);
        }
        let distance = self.distance(place)?;
        let begin = self
            .finished
            .bytes
            .len()
            .wrapping_sub(distance)
            .wrapping_add(4);
        let end = begin.wrapping_add(bytes.len());
        Ok(self.finished.bytes.as_slice().get(begin..end) == Some(bytes))
    }

    fn unions(&self, step: usize) -> &'a [(u8, usize)] {
        match self.steps.get(step) {
            Some(Step::Unions(unions)) => unions.as_slice(),
            _ => &[],
        }
    }

    fn reads_later(&mut self, place: Option<Place<'a>>, step: usize) -> Result<bool, Fail> {
        match place {
            Some(place) => {
                self.later.push(Value { step, place })?;
                Ok(true)
            }
            None => Ok(false),
        }
    }

    fn has_references(&mut self, place: Place<'a>, steps: &[usize]) -> Result<bool, Fail> {
        let list = place.read::<Vector<'a, Place<'a>>>()?;
        for i in 0..steps.len() {
            if !self.reads_later(list.get(i), steps[i])? {
                return Ok(false);
            }
        }
        Ok(list.len() == steps.len())
    }

    fn has_unions(&mut self, place: Place<'a>, unions: &[(u8, usize)]) -> Result<bool, Fail> {
        let list = place.read::<Vector<'a, Place<'a>>>()?;
        for i in 0..unions.len() {
            if !self.reads_later(list.get(i), unions[i].1)? {
                return Ok(false);
            }
        }
        Ok(list.len() == unions.len())
    }

    fn has_field(&mut self, place: Place<'a>, value: &FieldValue) -> Result<bool, Fail> {
        match value {
            FieldValue::Number { width, value } => has_number(place, *width, *value),
            FieldValue::Plain { bytes, .. } => Ok(self.has_part(place, bytes.as_slice())),
            FieldValue::Ref(step) => self.reads_later(Some(place), *step),
            FieldValue::Tags(step) => has_tags(place, self.unions(*step)),
            FieldValue::Values(step) => self.has_unions(place, self.unions(*step)),
        }
    }

    fn has_fields(&mut self, place: Place<'a>, fields: &[Field]) -> Result<bool, Fail> {
        let table = place.read::<Table<'a>>()?;
        for field in fields {
            let slot = field.slot as usize;
            let place = table.access_required::<Place<'a>>(slot, "Table", "field")?;
            if !self.has_field(place, &field.value)? {
                return Ok(false);
            }
        }
        Ok(true)
    }

    fn has_value(&mut self, place: Place<'a>, step: usize) -> Result<bool, Fail> {
        match self.steps.get(step) {
            Some(Step::Text(text)) => has_text(place, text.as_str()),
            Some(Step::Bytes(bytes)) => has_bytes(place, bytes.as_slice()),
            Some(Step::Numbers { width, items }) => has_numbers(place, *width, items.as_slice()),
            Some(Step::Refs(steps)) => self.has_references(place, steps.as_slice()),
            Some(Step::Struct { bytes, .. }) => self.has_struct(place, bytes.as_slice()),
            Some(Step::Plains { size, bytes, .. }) => {
                self.has_values(place, *size, bytes.as_slice())
            }
            Some(Step::Table(fields)) => self.has_fields(place, fields.as_slice()),
            _ => Ok(false),
        }
    }

    // `read` has the distance of each step's value, once it is read.
    fn all_are_read(&mut self, read: &mut [Option<usize>]) -> Result<bool, Fail> {
        for _ in 0..100000 {
            let Some(Value { step, place }) = self.later.pop() else {
                return Ok(true);
            };
            let distance = self.distance(place)?;
            match read.get(step) {
                Some(Some(before)) if *before == distance => continue,
                Some(None) => {}
                _ => return Ok(false),
            }
            read[step] = Some(distance);
            if !self.has_value(place, step)? {
                return Ok(false);
            }
        }
        Err(Fail::new("too many references"))
    }
}

// All references to one value must lead to one place.
pub fn reads_back(
    alloc: Global,
    steps: &[Step],
    root: usize,
    sized: bool,
    finished: &Finished,
) -> Result<bool, Fail> {
    let bytes = finished.bytes.as_slice();
    let whole = if sized {
        read_size_prefixed(bytes)?.0
    } else {
        SliceWithStartOffset::new(bytes, 0)
    };
    let mut reading = Reading {
        steps,
        finished,
        later: Vec::new(alloc),
    };
    let place = <Place<'_> as TableRead<'_>>::from_buffer(whole, 0)?;
    reading.later.push(Value { step: root, place })?;
    let mut read = vec![in alloc; None; steps.len()]?;
    reading.all_are_read(read.as_mut_slice())
}
