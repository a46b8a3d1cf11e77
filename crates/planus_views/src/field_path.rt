//! Names of fields that lead to a place in a buffer.

ghost use Rattle.std.specs.Prelude.{◌≡◌};

use std::fmt;

/// The names of the fields that lead from a buffer's root to a place, as `crew[3].name`, which is how
/// it is shown.
#[derive(Drop)]
pub struct FieldPath {
    text: String,
}

impl FieldPath {
    ghost use Rattle.std.specs.String.{string_bytes};
    ghost use Rattle.planus_views.specs.Wheres.{path_text};

    pub(crate) fn new(text: String) -> FieldPath
        ensures { path_text result ≡ string_bytes text }
    {
        FieldPath { text }
    }

    /// Returns the names.
    pub fn as_str(&self) -> &str
        ensures { result.now ≡ path_text self.now }
    {
        self.text.as_str()
    }
}

impl fmt::Display for FieldPath {
    ghost use Rattle.planus_views.specs.Wheres.{path_text};
    ghost use Rattle.std.specs.Prelude.{Some};

    ghost output = { λ path. Some (path_text path) };

    fn fmt<W: fmt::Write>(&self, f: &mut fmt::Formatter<W>) -> fmt::Result {
        f.write_str(self.as_str())
    }
}

impl fmt::Debug for FieldPath {
    fn fmt<W: fmt::Write>(&self, f: &mut fmt::Formatter<W>) -> fmt::Result {
        f.write_str(self.as_str())
    }
}
