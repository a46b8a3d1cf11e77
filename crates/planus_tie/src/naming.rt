//! The names of what is declared, in code.

ghost use Rattle.std.specs.Prelude.{◌≡◌};
ghost use Rattle.planus_tie.specs.Wanted as spec;

use planus_schema::Declared;

/// The names of types, of their modules and of members, by the indices of declarations and the
/// places in these.
#[derive(Clone, Copy)]
pub struct Naming<'a> {
    pub declared: &'a [Declared],
    pub modules: &'a [Vec<u8>],
    pub types: &'a [Vec<u8>],
    pub members: &'a [Vec<Vec<u8>>],
}

impl<'a> Naming<'a> {
    pub(crate) fn type_of(&self, index: usize) -> &'a [u8]
        ensures { result.now ≡ spec.type_of self.now index }
    {
        match self.types.get(index) {
            Some(name) => name.as_slice(),
            None => &[],
        }
    }

    pub(crate) fn module_of(&self, index: usize) -> &'a [u8]
        ensures { result.now ≡ spec.module_of self.now index }
    {
        match self.modules.get(index) {
            Some(name) => name.as_slice(),
            None => &[],
        }
    }

    pub(crate) fn member_of(&self, index: usize, place: usize) -> &'a [u8]
        ensures { result.now ≡ spec.member_of self.now index place }
    {
        match self.members.get(index) {
            Some(names) => match names.get(place) {
                Some(name) => name.as_slice(),
                None => &[],
            },
            None => &[],
        }
    }
}
