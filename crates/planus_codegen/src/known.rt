//! Names that printed code can't take.

ghost use Rattle.std.specs.Prelude.{◌≡◌};
ghost use Rattle.std.specs.List.{list_any};
ghost use Rattle.planus_codegen.specs.Known as spec;

use crate::imports::{PROOF_WORDS, WORDS};
use crate::uses::{ERRORS, NAMES};

/// Reserved as field names in definitions, unless escaped.
const ESCAPED: &str = "axiom infix infixl infixr mutual open unfold";

/// Types that code has anyway, without an import, and a file of definitions.
const KNOWN_TYPES: &str =
    "Bool Clone Copy Debug Default Drop Eq Err FieldLine Float Lib None Ok Option \
     Ord PartialEq PartialOrd Result Some String Table Type Unit Vec Verified";

/// What a crate has beside its modules.
const KNOWN_MODULES: &str = "finish_root finish_root_size_prefixed has_identifier lib read_as_root \
     read_size_prefixed_as_root root verified verify_as_root verify_buffer \
     verify_size_prefixed_as_root verify_size_prefixed_buffer where_fault_is where_is";

fn has_word(words: &str, name: &[u8]) -> bool
    ensures { result ≡ spec.is_word_of words.now name.now }
{
    words.split(' ').any(|word| word.as_bytes() == name)
}

fn is_in_rows(rows: &[(&str, &str)], name: &[u8]) -> bool
    ensures { result ≡ list_any (λ row. spec.is_word_of row.1.now name.now) rows.now }
{
    rows.iter().any(|row| has_word(row.1, name))
}

fn is_in_clauses(name: &[u8]) -> bool
    ensures { result ≡ list_any (λ text. spec.is_word_of text name.now) spec.in_clauses }
{
    is_in_rows(&WORDS, name)
}

fn is_in_code(name: &[u8]) -> bool
    ensures { result ≡ spec.is_word_of spec.in_code name.now }
{
    has_word(NAMES, name)
}

fn is_error_in_code(name: &[u8]) -> bool
    ensures { result ≡ spec.is_word_of spec.errors_in_code name.now }
{
    has_word(ERRORS, name)
}

fn is_in_proofs(name: &[u8]) -> bool
    ensures { result ≡ spec.is_word_of spec.in_proofs name.now }
{
    has_word(PROOF_WORDS, name)
}

fn is_own_type(name: &[u8]) -> bool
    ensures { result ≡ spec.is_word_of spec.own_types name.now }
{
    has_word(KNOWN_TYPES, name)
}

/// Whether printed code imports this name, in code, in clauses or in definitions.
fn is_imported(name: &[u8]) -> bool
    ensures { result ≡ spec.is_imported name.now }
{
    is_in_clauses(name) || is_in_code(name) || is_error_in_code(name) || is_in_proofs(name)
}

/// Whether a record's field of this name must be written in «».
pub(crate) fn is_escaped(name: &[u8]) -> bool {
    has_word(ESCAPED, name)
}

pub(crate) fn is_known_module(name: &[u8]) -> bool
    ensures { result ≡ spec.is_word_of spec.own_modules name.now }
{
    has_word(KNOWN_MODULES, name)
}

fn ends_as_printed(name: &[u8]) -> bool
    ensures { result ≡ spec.ends_as_printed name.now }
{
    name.ends_with(b"Ref")
        || name.ends_with(b"Fields")
        || name.ends_with(b"FieldGroup")
        || name.ends_with(b"FieldLines")
        || name.ends_with(b"View")
}

/// Whether code has such a type anyway. Those of fields, groups and views end in `Fields`,
/// `FieldGroup`, `FieldLines`, `Ref` and `View`.
pub(crate) fn is_known_type(name: &[u8]) -> bool
    ensures { result ≡ spec.is_known_type name.now }
{
    is_own_type(name) || is_imported(name) || ends_as_printed(name)
}
