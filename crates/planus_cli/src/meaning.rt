//! What a schema means, and the files that it was read from.

use crate::check::File;
use planus_resolve::Schema;
use planus_syntax::Declaration;

/// The files of a schema, their declarations, and what they mean.
#[derive(Drop)]
pub struct Meaning {
    pub files: Vec<File>,
    pub declarations: Vec<Vec<Declaration>>,
    pub schema: Schema,
}
