use crate::json::Json;
use crate::member::Member;

/// What a value is.
#[cycle(json)]
#[derive(Drop)]
pub enum Value {
    /// A number, `true`, `false`, `null`, `nan` or a name, as it is written.
    Word(String),
    /// What a string in quotes says.
    Text(String),
    /// The items of `[..]`.
    List(Vec<Json>),
    /// The members of `{..}`, in the order of the text.
    Object(Vec<Member>),
}
