//! The names of attributes.

ghost use Rattle.std.specs.Prelude.{◌≡◌, IfOk};
ghost use Rattle.planus_syntax.specs.Values.{names_of};
ghost use Rattle.planus_schema.specs.Distinct.{is_in};
ghost use Rattle.planus_resolve.specs.inner.Index.{IsTaken};

use std::alloc::{AllocError, Global};
use std::collections::BTreeMap;
use std::marker::Model;

/// The attributes that may be used. Contracts see the list; a name is looked up in logarithmic time.
#[derive(Drop)]
pub(crate) struct AttributeNames<'n> {
    list: &'n [Vec<u8>],
    taken: BTreeMap<&'n [u8], usize>,
}

impl<'n> Model for AttributeNames<'n> {
    ghost use Rattle.std.specs.Prelude.{List};
    ghost use Rattle.planus_syntax.specs.Values.{Name, names_of};
    ghost use Rattle.planus_resolve.specs.inner.Index.{IsTaken};

    ghost Value = { List Name };

    ghost view = { λ a. names_of a.list.now };

    ghost invariant = { λ a. IsTaken a.taken (names_of a.list.now) };
}

fn keys<'n>(alloc: Global, list: &'n [Vec<u8>]) -> Result<BTreeMap<&'n [u8], usize>, AllocError>
    ensures { IfOk result (λ taken. IsTaken taken (names_of list.now)) }
{
    let mut taken = BTreeMap::new(alloc);
    'names: for name in list {
        taken.insert(name.as_slice(), 0)?;
    }
    Ok(taken)
}

impl<'n> AttributeNames<'n> {
    pub(crate) fn new(alloc: Global, list: &'n [Vec<u8>]) -> Result<Self, AllocError>
        ensures { IfOk result (λ names. names ≡ names_of list.now) }
    {
        let taken = keys(alloc, list)?;
        Ok(AttributeNames { list, taken })
    }

    pub(crate) fn has(&self, name: &[u8]) -> bool
        ensures { result ≡ is_in self.now name.now }
    {
        self.taken.get(name).is_some()
    }
}
