//! The syntax of flatbuffers schemas. [`parse_text`] reads a text as declarations, and
//! [`format_text`] returns its canonical text, with its comments. `Spelled` and `Values` of `specs/`
//! define which texts spell which schema, `Comments` the canonical text.
#![tactic(auto)]

mod comments;
mod due;
mod element;
mod laws;
mod layout;
mod lexer;
mod number;
mod parse;
mod parse_fault;
mod read_error;
mod run;
mod strings;
mod text;
mod token;
mod value;

pub use laws::{
    canonical_again, canonical_stays, declarations_again, layout_spells, no_comments,
    one_canonical_text, one_place, one_schema, spelling_found, spelling_read,
};
pub use lexer::LexFault;
pub use number::{is_float_name, is_number};
pub use parse_fault::ParseFault;
pub use strings::{between_quotes, label_is, label_name, string_text};
pub use text::{SchemaError, after_order_mark, format_text, parse_text, place_from_end};
pub use value::{
    Attribute, Declaration, Enumeration, Field, Item, Kind, Label, Literal, Member, Method, Path,
    Record, Schema, Service, UnionBody, Variant,
};
