//! A plain, slow run of steps, which finds padding by trying.

use super::settings::{CacheSettings, Kind};
use planus::{Field, FieldValue, Finished, Step, StepPlace};
use std::alloc::{AllocError, Global};
use std::test::Fail;

#[derive(Drop)]
struct Shared {
    kind: Kind,
    contents: Vec<u8>,
    distance: usize,
}

#[derive(Drop)]
struct Written {
    // The last byte first.
    reversed: Vec<u8>,
    // Distance from the end, and alignment: up to 16.
    parts: Vec<(usize, usize)>,
    values: Vec<StepPlace>,
    shared: Vec<Shared>,
    settings: CacheSettings,
    alloc: Global,
}

fn size_of(field: &Field) -> usize {
    match &field.value {
        FieldValue::Number { width, .. } => *width as usize,
        FieldValue::Plain { bytes, .. } => bytes.len(),
        FieldValue::Ref(_) | FieldValue::Tags(_) | FieldValue::Values(_) => 4,
    }
}

fn aligned_to(field: &Field) -> usize {
    match &field.value {
        FieldValue::Plain { alignment, .. } => *alignment as usize,
        _ => size_of(field),
    }
}

fn size_of_all(fields: &[Field]) -> usize {
    let mut size: usize = 0;
    for field in fields {
        size = size.wrapping_add(size_of(field));
    }
    size
}

fn alignment_of(fields: &[Field]) -> usize {
    let mut alignment = 4;
    for field in fields {
        alignment = alignment.max(aligned_to(field));
    }
    alignment
}

// Up to the greatest of these fields.
fn slots_of(fields: &[Field]) -> usize {
    let mut slots: usize = 0;
    for field in fields {
        slots = slots.max(field.slot as usize + 1);
    }
    slots
}

// After the object's word, 0 if absent.
fn place_of(fields: &[Field], slot: usize) -> usize {
    let mut place: usize = 4;
    for field in fields {
        if field.slot as usize == slot {
            return place;
        }
        place = place.wrapping_add(size_of(field));
    }
    0
}

fn push_number(bytes: &mut Vec<u8>, number: usize) -> Result<(), AllocError> {
    bytes.extend_from_slice(&(number as u64).to_le_bytes()[..2])
}

fn push_vtable(bytes: &mut Vec<u8>, fields: &[Field]) -> Result<(), AllocError> {
    let slots = slots_of(fields);
    push_number(bytes, slots.wrapping_mul(2).wrapping_add(4))?;
    push_number(bytes, size_of_all(fields).wrapping_add(4))?;
    for slot in 0..slots {
        push_number(bytes, place_of(fields, slot))?;
    }
    Ok(())
}

impl Written {
    fn nothing(alloc: Global, settings: CacheSettings) -> Written {
        Written {
            reversed: Vec::new(alloc),
            parts: Vec::new(alloc),
            values: Vec::new(alloc),
            shared: Vec::new(alloc),
            settings,
            alloc,
        }
    }

    fn keeps(&self, length: usize) -> bool {
        for (distance, alignment) in &self.parts {
            if length.wrapping_sub(*distance).checked_rem(*alignment) != Some(0) {
                return false;
            }
        }
        true
    }

    fn can_stand(&self, distance: usize, alignment: usize) -> bool {
        for length in 0..16usize {
            if length.wrapping_sub(distance).checked_rem(alignment) == Some(0)
                && self.keeps(length)
            {
                return true;
            }
        }
        false
    }

    fn pad(&mut self, size: usize, alignment: usize) -> Result<usize, AllocError> {
        for _ in 0..15 {
            if self.can_stand(self.reversed.len().wrapping_add(size), alignment) {
                break;
            }
            self.reversed.push(0)?;
        }
        let distance = self.reversed.len().wrapping_add(size);
        self.parts.push((distance, alignment))?;
        Ok(distance)
    }

    fn greatest(&self) -> usize {
        let mut greatest = 4;
        for (_, alignment) in &self.parts {
            greatest = greatest.max(*alignment);
        }
        greatest
    }

    fn put(&mut self, bytes: &[u8]) -> Result<(), AllocError> {
        let len = bytes.len();
        for i in 0..len {
            self.reversed.push(bytes[len - 1 - i])?;
        }
        Ok(())
    }

    fn put_word(&mut self, word: usize) -> Result<(), AllocError> {
        self.put(&(word as u64).to_le_bytes()[..4])
    }

    fn add_at(&mut self, step: usize, distance: usize) -> Result<(), Fail> {
        self.values.push(StepPlace {
            step,
            distance: u32::try_from(distance)?,
            tags: None,
        })?;
        Ok(())
    }

    fn add(&mut self, step: usize) -> Result<(), Fail> {
        let distance = self.reversed.len();
        self.add_at(step, distance)
    }

    fn shared_at(&self, kind: Kind, contents: &[u8]) -> Option<usize> {
        for shared in &self.shared {
            if shared.kind == kind && shared.contents.as_slice() == contents {
                return Some(shared.distance);
            }
        }
        None
    }

    fn share(&mut self, kind: Kind, contents: &[u8]) -> Result<(), AllocError> {
        if self.settings.is_on(kind) {
            self.shared.push(Shared {
                kind,
                contents: Vec::from_slice(self.alloc, contents)?,
                distance: self.reversed.len(),
            })?;
        }
        Ok(())
    }

    fn counted(&mut self, kind: Kind, contents: &[u8], behind: &[u8]) -> Result<usize, AllocError> {
        if let Some(distance) = self.shared_at(kind, contents) {
            return Ok(distance);
        }
        let size = contents.len().wrapping_add(behind.len());
        self.pad(size.wrapping_add(4), 4)?;
        self.put(behind)?;
        self.put(contents)?;
        self.put_word(contents.len())?;
        self.share(kind, contents)?;
        Ok(self.reversed.len())
    }

    fn text(&mut self, step: usize, text: &[u8]) -> Result<(), Fail> {
        let distance = self.counted(Kind::Text, text, &[0])?;
        self.add_at(step, distance)
    }

    fn bytes(&mut self, step: usize, bytes: &[u8]) -> Result<(), Fail> {
        let distance = self.counted(Kind::Bytes, bytes, &[])?;
        self.add_at(step, distance)
    }

    fn structure(&mut self, step: usize, alignment: u8, bytes: &[u8]) -> Result<(), Fail> {
        self.pad(bytes.len(), alignment as usize)?;
        self.put(bytes)?;
        self.add(step)
    }

    fn plains(&mut self, step: usize, align: u8, size: usize, bytes: &[u8]) -> Result<(), Fail> {
        let count = bytes.len().checked_div(size).ok_or("no size")?;
        self.pad(bytes.len(), (align as usize).max(4))?;
        self.put(bytes)?;
        self.put_word(count)?;
        self.add(step)
    }

    fn numbers(&mut self, step: usize, width: u8, items: &[u64]) -> Result<(), Fail> {
        let alignment = if width == 8 { 8 } else { 4 };
        self.pad(items.len().wrapping_mul(width as usize), alignment)?;
        let len = items.len();
        for i in 0..len {
            self.put_number(width, items[len - 1 - i])?;
        }
        self.put_word(items.len())?;
        self.add(step)
    }

    fn refs(&mut self, step: usize, steps: &[usize]) -> Result<(), Fail> {
        self.pad(steps.len().wrapping_mul(4), 4)?;
        let len = steps.len();
        for i in 0..len {
            self.put_reference(steps[len - 1 - i])?;
        }
        self.put_word(steps.len())?;
        self.add(step)
    }

    fn union_references(&mut self, items: &[(u8, usize)]) -> Result<u32, Fail> {
        self.pad(items.len().wrapping_mul(4), 4)?;
        let len = items.len();
        for i in 0..len {
            self.put_reference(items[len - 1 - i].1)?;
        }
        self.put_word(items.len())?;
        Ok(u32::try_from(self.reversed.len())?)
    }

    fn union_tags(&mut self, items: &[(u8, usize)]) -> Result<u32, Fail> {
        self.pad(items.len(), 4)?;
        let len = items.len();
        for i in 0..len {
            self.reversed.push(items[len - 1 - i].0)?;
        }
        self.put_word(items.len())?;
        Ok(u32::try_from(self.reversed.len())?)
    }

    fn unions(&mut self, step: usize, items: &[(u8, usize)]) -> Result<(), Fail> {
        let distance = self.union_references(items)?;
        let tags = Some(self.union_tags(items)?);
        self.values.push(StepPlace {
            step,
            distance,
            tags,
        })?;
        Ok(())
    }

    fn vtable(&mut self, fields: &[Field]) -> Result<usize, AllocError> {
        let mut vtable = Vec::new(self.alloc);
        push_vtable(&mut vtable, fields)?;
        self.vtable_of(vtable.as_slice())
    }

    fn vtable_of(&mut self, vtable: &[u8]) -> Result<usize, AllocError> {
        if let Some(distance) = self.shared_at(Kind::Vtable, vtable) {
            return Ok(distance);
        }
        self.pad(vtable.len(), 2)?;
        self.put(vtable)?;
        self.share(Kind::Vtable, vtable)?;
        Ok(self.reversed.len())
    }

    fn put_number(&mut self, width: u8, value: u64) -> Result<(), AllocError> {
        let bytes = value.to_le_bytes();
        match width {
            1 => self.put(&bytes[..1]),
            2 => self.put(&bytes[..2]),
            4 => self.put(&bytes[..4]),
            _ => self.put(&bytes),
        }
    }

    fn field(&mut self, value: &FieldValue) -> Result<(), Fail> {
        match value {
            FieldValue::Number { width, value } => Ok(self.put_number(*width, *value)?),
            FieldValue::Plain { bytes, .. } => Ok(self.put(bytes.as_slice())?),
            FieldValue::Ref(named) | FieldValue::Values(named) => self.put_reference(*named),
            FieldValue::Tags(named) => self.put_reference_to(self.tags(*named)),
        }
    }

    fn table(&mut self, step: usize, fields: &[Field]) -> Result<(), Fail> {
        let vtable = self.vtable(fields)?;
        self.pad(size_of_all(fields), alignment_of(fields))?;
        let len = fields.len();
        for i in 0..len {
            self.field(&fields[len - 1 - i].value)?;
        }
        let place = self.reversed.len().wrapping_add(4);
        self.put_word(vtable.wrapping_sub(place))?;
        self.add(step)
    }

    fn put_reference(&mut self, named: usize) -> Result<(), Fail> {
        self.put_reference_to(self.distance(named))
    }

    fn put_reference_to(&mut self, distance: Option<usize>) -> Result<(), Fail> {
        let distance = distance.ok_or("no such value")?;
        let place = self.reversed.len().wrapping_add(4);
        self.put_word(place.wrapping_sub(distance))?;
        Ok(())
    }

    fn distance(&self, step: usize) -> Option<usize> {
        for value in &self.values {
            if value.step == step {
                return Some(value.distance as usize);
            }
        }
        None
    }

    fn tags(&self, step: usize) -> Option<usize> {
        for value in &self.values {
            if value.step == step {
                return value.tags.map(|tags| tags as usize);
            }
        }
        None
    }

    fn finish(&mut self, root: usize, id: Option<[u8; 4]>, sized: bool) -> Result<(), AllocError> {
        let alignment = self.greatest();
        let words: usize = if sized { 8 } else { 4 };
        match id {
            Some(id) => {
                self.pad(words.wrapping_add(4), alignment)?;
                self.put(&id)?;
            }
            None => {
                self.pad(words, alignment)?;
            }
        }
        let distance = self.reversed.len().wrapping_add(4);
        self.put_word(distance.wrapping_sub(root))?;
        if sized {
            let size = self.reversed.len();
            self.put_word(size)?;
        }
        Ok(())
    }

    fn given(&self) -> Result<Finished, AllocError> {
        let mut bytes = Vec::new(self.alloc);
        let len = self.reversed.len();
        for i in 0..len {
            bytes.push(self.reversed[len - 1 - i])?;
        }
        let places = Vec::from_slice(self.alloc, self.values.as_slice())?;
        Ok(Finished { bytes, places })
    }
}

impl Written {
    fn clear(&mut self) {
        self.reversed.clear();
        self.parts.clear();
        self.values.clear();
        self.shared.clear();
    }

    fn value(&mut self, number: usize, step: &Step) -> Result<(), Fail> {
        match step {
            Step::Text(text) => self.text(number, text.as_bytes()),
            Step::Bytes(bytes) => self.bytes(number, bytes.as_slice()),
            Step::Numbers { width, items } => self.numbers(number, *width, items.as_slice()),
            Step::Refs(steps) => self.refs(number, steps.as_slice()),
            Step::Unions(items) => self.unions(number, items.as_slice()),
            Step::Struct { alignment, bytes } => {
                self.structure(number, *alignment, bytes.as_slice())
            }
            Step::Plains {
                alignment,
                size,
                bytes,
            } => self.plains(number, *alignment, *size, bytes.as_slice()),
            Step::Table(fields) => self.table(number, fields.as_slice()),
            Step::Finish { .. } | Step::FinishSized { .. } | Step::Clear => Ok(()),
        }
    }

    fn step(
        &mut self,
        number: usize,
        step: &Step,
        finished: &mut Vec<Finished>,
    ) -> Result<(), Fail> {
        match step {
            Step::Clear => {
                self.clear();
                Ok(())
            }
            Step::Finish { root, id } => {
                let root = self.distance(*root).ok_or("no such value")?;
                self.finish(root, *id, false)?;
                finished.push(self.given()?)?;
                Ok(())
            }
            Step::FinishSized { root, id } => {
                let root = self.distance(*root).ok_or("no such value")?;
                self.finish(root, *id, true)?;
                finished.push(self.given()?)?;
                Ok(())
            }
            _ => self.value(number, step),
        }
    }
}

fn take_steps(
    alloc: Global,
    settings: CacheSettings,
    steps: &[Step],
    finished: &mut Vec<Finished>,
) -> Result<(), Fail> {
    let mut written = Written::nothing(alloc, settings);
    for number in 0..steps.len() {
        written.step(number, &steps[number], finished)?;
    }
    Ok(())
}

pub fn plain_run(
    alloc: Global,
    settings: CacheSettings,
    steps: &[Step],
) -> Result<Vec<Finished>, Fail> {
    let mut finished = Vec::new(alloc);
    take_steps(alloc, settings, steps, &mut finished)?;
    Ok(finished)
}
