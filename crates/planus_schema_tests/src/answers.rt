//! What texts of schemas mean.

use planus_resolve::{Schema, resolve};
use planus_syntax::{Declaration, parse_text};
use std::alloc::Global;

/// Returns the declarations of these texts, if each is read and memory isn't refused.
fn declarations(alloc: Global, texts: &[&[u8]]) -> Option<Vec<Vec<Declaration>>> {
    let mut files = Vec::new(alloc);
    for text in texts {
        files
            .push(parse_text(alloc, *text).ok()?.declarations)
            .ok()?;
    }
    Some(files)
}

/// Returns the schema that these texts mean.
pub fn meaning(alloc: Global, texts: &[&[u8]]) -> Option<Schema> {
    resolve(alloc, &declarations(alloc, texts)?).ok()
}
