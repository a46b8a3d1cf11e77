use planus_json_syntax::Member;

/// An object of a text: the place of its first byte, and its members.
#[derive(Clone, Copy)]
pub(crate) struct Object<'a> {
    pub at: usize,
    pub members: &'a [Member],
}
