//! The body of a table, written in place.
ghost use Rattle.std.specs.Prelude.{◌≡◌, ◌+◌, ◌<◌, ◌≤◌, ℕ, [], length};
ghost use Rattle.planus_write.specs.Items.{Item};

use crate::traits::{Primitive, WriteAsPrimitive};

/// Writes the fields of a table's object one after another.
#[derive(Drop)]
pub struct ObjectWriter<'a> {
    bytes: &'a mut [u8],
    at: usize,
    // The distance in bytes from the end of the buffer to the first of the bytes.
    place: u32,
    ghost inside: { length bytes.now ≤ place },
}

impl<'a> ObjectWriter<'a> {
    ghost use Rattle.planus_write.specs.ObjectWriting.{body_of, wrote};

    pub(crate) fn new(bytes: &'a mut [u8], place: u32) -> ObjectWriter<'a>
        requires { length bytes.old ≤ place }
        ensures { body_of result ≡ record {
          written = [];
          remaining = length bytes.old;
          place = place;
          reference = bytes.entry.ghost_name;
        } }
    {
        ObjectWriter {
            bytes,
            at: 0,
            place,
        }
    }

    /// Returns the number of bytes left to be written.
    #[inline]
    pub fn remaining(&self) -> usize
        ensures { result ≡ (body_of self.now).remaining }
    {
        self.bytes.len().saturating_sub(self.at)
    }

    /// Writes a field. Requires `P::SIZE` bytes to remain, and its reference to lead to a later
    /// byte.
    #[inline]
    pub fn write<P: Primitive, T: WriteAsPrimitive<P>>(&mut self, value: &T)
        requires room { P.SIZE ≤ (body_of self.old).remaining }
        requires reach { T.reach value.now ≤ (body_of self.old).place }
        ensures written { body_of self.new
            ≡ wrote P.SIZE (T.encoding value.now) (body_of self.old) }
        ensures size { length (T.encoding value.now (body_of self.old).place) ≡ P.SIZE }
    {
        let at = self.at;
        let place = self.place - at as u32;
        let bytes = &mut *self.bytes;
        value.write(&mut bytes[at..at + P::SIZE], place);
        self.at = at + P::SIZE;
    }

    /// Writes a field's bytes as they are, at least one. Requires as many to remain.
    #[inline]
    pub fn put(&mut self, content: &[u8])
        requires some { 0 < length content.now }
        requires room { length content.now ≤ (body_of self.old).remaining }
        ensures { body_of self.new
            ≡ wrote (length content.now) (λ _. content.now) (body_of self.old) }
    {
        let at = self.at;
        let bytes = &mut *self.bytes;
        bytes[at..at + content.len()].copy_from_slice(content);
        self.at = at + content.len();
    }
}

/// The fields of a table, in the order declared.
///
/// `size` is the number of their bytes, `encoding` names these by the place of the first, and
/// `reach` is the greatest distance in bytes from the end to which they refer.
pub trait ObjectFill {
    ghost use Rattle.planus_write.specs.ObjectWriting.{body_of, wrote};

    ghost size: { Self → ℕ };

    ghost reach: { Self → ℕ };

    ghost encoding: { Self → Item };

    /// Writes all fields.
    fn fill(&self, writer: &mut ObjectWriter<'_>)
        requires start { (body_of writer.old).written ≡ [] }
        requires size { (body_of writer.old).remaining ≡ size self.now }
        requires reach { reach self.now + size self.now ≤ (body_of writer.old).place }
        ensures { body_of writer.new
            ≡ wrote (size self.now) (encoding self.now) (body_of writer.old) };
}
