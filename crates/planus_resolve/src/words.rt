//! The words of a text.

ghost use Rattle.std.specs.Prelude.{◌≡◌, [], IfOk};
ghost use Rattle.planus_syntax.specs.Values.{names_of};
ghost use Rattle.planus_resolve.specs.Names as spec;

use crate::fault::or_return;
use std::alloc::{AllocError, Global};

pub(crate) fn cut_words(alloc: Global, text: &[u8]) -> Result<Vec<Vec<u8>>, AllocError>
    ensures { IfOk result (λ v. names_of v.items ≡ spec.cut_words [] text.now) }
{
    let mut words = Vec::new(alloc);
    let mut word = Vec::new(alloc);
    'bytes: for b in text {
        if *b == b' ' {
            words.push(word)?;
            word = Vec::new(alloc);
        } else {
            or_return!(word.push(*b), AllocError);
        }
    }
    words.push(word)?;
    Ok(words)
}
