//! The names of a scope.

ghost use Rattle.std.specs.Prelude.{◌≡◌};
ghost use Rattle.std.specs.List.{list_any};
ghost use Rattle.std.specs.Str.{bytes_eq};
ghost use Rattle.planus_schema.specs.Names as spec;

use crate::has_name as is_in;

/// Words that no name in printed code can be.
pub const RESERVED: [&str; 79] = [
    // Of Rust.
    "_",
    "Self",
    "abstract",
    "as",
    "async",
    "await",
    "become",
    "box",
    "break",
    "const",
    "continue",
    "crate",
    "do",
    "dyn",
    "else",
    "enum",
    "extern",
    "false",
    "final",
    "fn",
    "for",
    "gen",
    "if",
    "impl",
    "in",
    "let",
    "loop",
    "macro",
    "match",
    "mod",
    "move",
    "mut",
    "override",
    "priv",
    "pub",
    "ref",
    "return",
    "self",
    "static",
    "struct",
    "super",
    "trait",
    "true",
    "try",
    "type",
    "typeof",
    "union",
    "unsafe",
    "unsized",
    "use",
    "virtual",
    "where",
    "while",
    "yield",
    // Of clauses and proofs.
    "abbrev",
    "elim",
    "ensures",
    "ghost",
    "omega",
    "prove",
    "requires",
    "syntax",
    "unfolding",
    // Types.
    "bool",
    "f32",
    "f64",
    "i16",
    "i32",
    "i64",
    "i8",
    "u16",
    "u32",
    "u64",
    "u8",
    // Of printed code.
    "NOTHING",
    "core",
    "main",
    "planus",
    "std",
];

/// Words of clauses and of printed code, which a namespace can have.
const OF_MEMBERS: [&str; 9] = [
    "builder", "clone", "data", "deriving", "fields", "module", "record", "result", "table",
];

/// What the methods of an enum call its values.
const OF_VALUES: [&str; 2] = ["other", "this"];

/// Returns whether a name is one of these words.
pub fn is_one_of(words: &[&str], name: &[u8]) -> bool
    ensures { result ≡ list_any (λ word. bytes_eq word.now name.now) words.now }
{
    words.iter().any(|word| word.as_bytes() == name)
}

/// Returns whether no name can be this word.
pub fn is_reserved(name: &[u8]) -> bool
    ensures { result ≡ spec.is_reserved name.now }
{
    is_one_of(&RESERVED, name)
}

fn is_of_members(name: &[u8]) -> bool
    ensures { result ≡ spec.is_in spec.words_of_members name.now }
{
    is_one_of(&OF_MEMBERS, name)
}

/// Returns whether no value of an enum can be this word.
pub fn is_of_values(name: &[u8]) -> bool
    ensures { result ≡ spec.is_in spec.words_of_values name.now }
{
    is_one_of(&OF_VALUES, name)
}

/// Returns whether no field, type or module of a declaration can be this word.
pub fn is_held(name: &[u8]) -> bool
    ensures { result ≡ spec.is_held name.now }
{
    is_reserved(name) || is_of_members(name)
}

fn is_name_byte(byte: u8) -> bool
    ensures { result ≡ spec.is_name_byte byte }
{
    byte.is_ascii_alphanumeric() || byte == b'_'
}

fn begins_name(name: &[u8]) -> bool
    ensures { result ≡ spec.begins_name name.now }
{
    match name {
        [first, ..] => !first.is_ascii_digit(),
        [] => false,
    }
}

fn is_name(name: &[u8]) -> bool
    ensures { result ≡ spec.is_name name.now }
{
    let mut rest = name;
    'bytes: while let Some((first, after)) = rest.split_first() {
        if !is_name_byte(*first) {
            return false;
        }
        rest = after;
    }
    begins_name(name) && !is_reserved(name)
}

/// Returns whether a name equals one of these but for the case of letters.
pub fn is_among(names: &[Vec<u8>], name: &[u8]) -> bool
    ensures { result ≡ spec.is_among name.now names.now }
{
    names.iter().any(|one| one.eq_ignore_ascii_case(name))
}

/// Returns whether no two names are alike, whatever the case of letters.
pub fn are_apart(names: &[Vec<u8>]) -> bool
    ensures { result ≡ spec.are_apart names.now }
{
    let mut rest = names;
    'names: while let Some((first, after)) = rest.split_first() {
        if is_among(after, first) {
            return false;
        }
        rest = after;
    }
    true
}

fn are_all_names(names: &[Vec<u8>]) -> bool
    ensures { result ≡ spec.are_all_names names.now }
{
    let mut rest = names;
    'names: while let Some((first, after)) = rest.split_first() {
        if !is_name(first) {
            return false;
        }
        rest = after;
    }
    true
}

/// Returns whether these are identifiers, no two alike.
pub fn are_names(names: &[Vec<u8>]) -> bool
    ensures { result ≡ spec.are_names names.now }
{
    are_all_names(names) && are_apart(names)
}

/// Returns whether each of these passes [`are_names`].
pub fn are_scopes(scopes: &[Vec<Vec<u8>>]) -> bool
    ensures { result ≡ spec.are_scopes scopes.now }
{
    let mut rest = scopes;
    'scopes: while let Some((first, after)) = rest.split_first() {
        if !are_names(first) {
            return false;
        }
        rest = after;
    }
    true
}

/// Returns whether none of the names is one of the others.
pub fn are_apart_from(others: &[Vec<u8>], names: &[Vec<u8>]) -> bool
    ensures { result ≡ spec.are_apart_from others.now names.now }
{
    let mut rest = names;
    'names: while let Some((first, after)) = rest.split_first() {
        if is_in(others, first) {
            return false;
        }
        rest = after;
    }
    true
}
