//! A plain, slow reader over positions of 128 bits.

use planus_read::errors::ErrorKind;

pub type Answer<T> = Result<T, ErrorKind>;

fn byte(bytes: &[u8], at: i128) -> Option<u8> {
    match usize::try_from(at) {
        Ok(at) => bytes.get(at).copied(),
        Err(_) => None,
    }
}

fn part(bytes: &[u8], at: i128, count: i128) -> Option<&[u8]> {
    match (usize::try_from(at), usize::try_from(at.wrapping_add(count))) {
        (Ok(begin), Ok(end)) => bytes.get(begin..end),
        _ => None,
    }
}

// Where a number, a reference or a count isn't whole, the error is an invalid offset.
pub fn number(bytes: &[u8], at: i128, width: u8) -> Option<u64> {
    let mut value: u64 = 0;
    let mut worth: u64 = 1;
    for i in 0..width {
        let byte = byte(bytes, at.wrapping_add(i as i128))?;
        value = value.wrapping_add(worth.wrapping_mul(byte as u64));
        worth = worth.wrapping_mul(256);
    }
    Some(value)
}

pub fn unsigned(bytes: &[u8], at: i128, width: u8) -> Option<i128> {
    match number(bytes, at, width) {
        Some(value) => Some(value as i128),
        None => None,
    }
}

pub fn signed(bytes: &[u8], at: i128, width: u8) -> Option<i128> {
    let value = number(bytes, at, width)? as i128;
    let all: i128 = match width {
        1 => 0x100,
        2 => 0x1_0000,
        4 => 0x1_0000_0000,
        _ => 0x1_0000_0000_0000_0000,
    };
    Some(if value < all / 2 { value } else { value - all })
}

// In the bytes or at their end.
fn target(bytes: &[u8], f: i128) -> Option<i128> {
    let target = f.wrapping_add(number(bytes, f, 4)? as i128);
    if target <= bytes.len() as i128 {
        Some(target)
    } else {
        None
    }
}

#[derive(Clone, Copy)]
pub struct PlainList {
    pub items: i128,
    pub count: u64,
}

impl PlainList {
    fn fits(&self, bytes: &[u8], stride: i128) -> bool {
        let size = (self.count as i128).wrapping_mul(stride);
        self.items.wrapping_add(size) <= bytes.len() as i128
    }
}

pub fn head(bytes: &[u8], f: i128) -> Option<PlainList> {
    let target = target(bytes, f)?;
    let count = number(bytes, target, 4)?;
    Some(PlainList {
        items: target.wrapping_add(4),
        count,
    })
}

pub fn byte_list(bytes: &[u8], f: i128) -> Answer<&[u8]> {
    let Some(list) = head(bytes, f) else {
        return Err(ErrorKind::InvalidOffset);
    };
    match part(bytes, list.items, list.count as i128) {
        Some(list) => Ok(list),
        None => Err(ErrorKind::InvalidLength),
    }
}

fn letters(bytes: &[u8], list: PlainList) -> Option<&[u8]> {
    let count = list.count as i128;
    match byte(bytes, list.items.wrapping_add(count)) {
        Some(0) => part(bytes, list.items, count),
        _ => None,
    }
}

pub fn text(bytes: &[u8], f: i128) -> Answer<&str> {
    let Some(list) = head(bytes, f) else {
        return Err(ErrorKind::InvalidOffset);
    };
    match letters(bytes, list) {
        Some(letters) => Ok(std::str::from_utf8(letters)?),
        None => Err(ErrorKind::MissingNullTerminator),
    }
}

pub fn vector(bytes: &[u8], f: i128, stride: i128) -> Answer<PlainList> {
    match head(bytes, f) {
        Some(list) if list.fits(bytes, stride) => Ok(list),
        Some(_) => Err(ErrorKind::InvalidLength),
        None => Err(ErrorKind::InvalidOffset),
    }
}

pub fn union_vector(bytes: &[u8], f: i128, g: i128) -> Answer<(PlainList, PlainList)> {
    let (Some(tags), Some(values)) = (head(bytes, f), head(bytes, g)) else {
        return Err(ErrorKind::InvalidOffset);
    };
    if !tags.fits(bytes, 1) || !values.fits(bytes, 4) {
        return Err(ErrorKind::InvalidLength);
    }
    if tags.count != values.count {
        return Err(ErrorKind::UnionVectorLengthsMismatched {
            tags_len: tags.count as usize,
            values_len: values.count as usize,
        });
    }
    Ok((tags, values))
}

#[derive(Clone, Copy)]
pub struct PlainTable<'a> {
    pub bytes: &'a [u8],
    pub object: i128,
    vtable: i128,
    size: u16,
}

// No part may be before `from`.
fn words(bytes: &[u8], from: i128, f: i128) -> Option<PlainTable<'_>> {
    let object = target(bytes, f)?;
    let vtable = object.wrapping_sub(signed(bytes, object, 4)?);
    if vtable < from {
        return None;
    }
    let size = (number(bytes, vtable, 2)? % 65536) as u16;
    Some(PlainTable {
        bytes,
        object,
        vtable,
        size,
    })
}

pub fn table(bytes: &[u8], from: i128, f: i128) -> Answer<PlainTable<'_>> {
    let Some(table) = words(bytes, from, f) else {
        return Err(ErrorKind::InvalidOffset);
    };
    let length = table.size;
    if length < 4 || length % 2 != 0 {
        return Err(ErrorKind::InvalidVtableLength { length });
    }
    if table.vtable.wrapping_add(length as i128) > bytes.len() as i128 {
        return Err(ErrorKind::InvalidLength);
    }
    Ok(table)
}

impl<'a> PlainTable<'a> {
    fn has_slots(&self, slot: usize, count: u8) -> bool {
        4 + 2 * (slot as i128 + count as i128) <= self.size as i128
    }

    fn slot(&self, slot: usize) -> i128 {
        if !self.has_slots(slot, 1) {
            return 0;
        }
        let at = self.vtable.wrapping_add(4 + 2 * slot as i128);
        number(self.bytes, at, 2).unwrap_or(0) as i128
    }

    pub fn field(&self, slot: usize) -> Option<i128> {
        match self.slot(slot) {
            0 => None,
            distance => Some(self.object.wrapping_add(distance)),
        }
    }

    fn tag(&self, slot: usize) -> Option<u8> {
        let at = self.object.wrapping_add(self.slot(slot));
        Some((number(self.bytes, at, 1)? % 256) as u8)
    }

    pub fn union(&self, slot: usize) -> Answer<Option<(u8, i128)>> {
        if !self.has_slots(slot, 2) {
            return if self.size as i128 <= 4 + 2 * slot as i128 {
                Ok(None)
            } else {
                Err(ErrorKind::InvalidVtableLength { length: self.size })
            };
        }
        let Some(tag) = self.tag(slot) else {
            return Err(ErrorKind::InvalidOffset);
        };
        match (self.field(slot), self.field(slot.wrapping_add(1))) {
            (Some(_), Some(value)) if tag != 0 => Ok(Some((tag, value))),
            _ => Ok(None),
        }
    }

    pub fn union_vector(&self, slot: usize) -> Answer<Option<(i128, i128)>> {
        if !self.has_slots(slot, 2) {
            return Ok(None);
        }
        match (self.field(slot), self.field(slot.wrapping_add(1))) {
            (None, None) => Ok(None),
            (Some(tags), Some(values)) => Ok(Some((tags, values))),
            _ => Err(ErrorKind::InvalidOffset),
        }
    }
}
