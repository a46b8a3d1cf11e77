ghost use Rattle.std.specs.Prelude.{◌≡◌, ◌+◌, ◌≤◌, ◌++◌, [], ◌∷◌, length};
ghost use Rattle.std.specs.Int.{w32, to_le_bytes};
ghost use Rattle.planus_back.specs.Padding.{greatest_place};

use planus_back::Overwrite;

#[derive(Drop)]
pub(crate) struct TextPart<'a>(pub(crate) &'a [u8]);

impl<'a> Overwrite for TextPart<'a> {
    ghost fits = { λ part place n. (n ≡ length part.0.now + 5) × (n ≤ greatest_place) };

    ghost encoding = { λ part place n.
        to_le_bytes w32 (length part.0.now) ++ part.0.now ++ 0 ∷ [] };

    #[inline(always)]
    fn overwrite(&self, _place: u32, bytes: &mut [u8]) {
        let text = self.0;
        let (count, behind) = bytes.split_at_mut(4);
        let (middle, zero) = behind.split_at_mut(text.len());
        count.copy_from_slice(&(text.len() as u32).to_le_bytes());
        zero.copy_from_slice(&[0]);
        // Last, so that nothing is held across a copy that may be long.
        middle.copy_from_slice(text);
    }
}
