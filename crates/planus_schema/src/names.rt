//! Names.

ghost use Rattle.std.specs.Prelude.{◌≡◌, position, IsTrue, ◌↔◌, Some};
ghost use Rattle.std.specs.List.{list_any};
ghost use Rattle.std.specs.Str.{bytes_eq};

/// Returns whether a name is among these.
pub fn has_name(names: &[Vec<u8>], name: &[u8]) -> bool
    ensures { result ≡ list_any (λ w. bytes_eq w.items name.now) names.now }
{
    names.iter().any(|word| word.as_slice() == name)
}

/// Returns whether `found`, a name's first index, is this.
pub fn is_first(found: Option<usize>, index: usize) -> bool
    ensures { IsTrue result ↔ found ≡ Some index }
{
    found == Some(index)
}

/// Returns the index of a file, so that each is read once, however files include each other.
pub fn file_index(files: &[Vec<u8>], name: &[u8]) -> Option<usize>
    ensures { result ≡ position (λ file. bytes_eq file.items name.now) files.now }
{
    files.iter().position(|file| file.as_slice() == name)
}
