//! The names of calls for C, and of what is beside them.

use crate::at::At;
use crate::context::Context;
use crate::names::name_at;
use crate::order::places_by_name;
use crate::print_error::PrintError;
use planus_schema::Body;
use std::alloc::AllocError;

/// What each crate for C has.
const OWN: &str =
    "fault has_identifier member root sized span status_text string_at table_name values.rt verify";

const OWNER: &[u8] = b"each crate for C";

const ALIKE: &str = "one name in C for both";

/// Names without their prefix, and of what each is.
#[derive(Drop)]
struct Taken<'a> {
    context: &'a Context<'a>,
    names: Vec<Vec<u8>>,
    owners: Vec<Vec<u8>>,
}

impl<'a> Taken<'a> {
    fn add_own(&mut self) -> Result<(), AllocError> {
        for word in OWN.split(' ') {
            self.names
                .push(Vec::from_slice(self.context.alloc, word.as_bytes())?)?;
            self.owners
                .push(Vec::from_slice(self.context.alloc, OWNER)?)?;
        }
        Ok(())
    }

    // A declaration's name in the schema.
    fn owner(&self, at: At) -> Result<Vec<u8>, AllocError> {
        match self.context.declared.get(at.index) {
            Some(one) => Vec::from_slice(self.context.alloc, &one.name),
            None => Ok(Vec::new(self.context.alloc)),
        }
    }

    // A declaration's name in code with an ending.
    fn named(&self, at: At, ending: &[u8]) -> Result<Vec<u8>, AllocError> {
        let module = self.context.names.module(at.index);
        let mut name = Vec::from_slice(self.context.alloc, module)?;
        name.extend_from_slice(ending)?;
        Ok(name)
    }

    fn add(&mut self, at: At, ending: &[u8]) -> Result<(), AllocError> {
        let name = self.named(at, ending)?;
        let owner = self.owner(at)?;
        self.names.push(name)?;
        self.owners.push(owner)?;
        Ok(())
    }

    // The name of a field's call, or in capitals that of an enum's value.
    fn add_member(&mut self, at: At, capitals: bool) -> Result<(), AllocError> {
        let mut name = self.named(at, b"_")?;
        name.extend_from_slice(self.context.names.member(at.index, at.place))?;
        if capitals {
            name.make_ascii_uppercase();
        }
        let mut owner = self.owner(at)?;
        owner.push(b'.')?;
        owner.extend_from_slice(self.context.said(at))?;
        self.names.push(name)?;
        self.owners.push(owner)?;
        Ok(())
    }

    fn add_members(&mut self, at: At, capitals: bool) -> Result<(), AllocError> {
        for place in 0..self.context.names.count(at.index) {
            let at = at.member(place);
            let deprecated = match self.context.field(at) {
                Some(field) => field.deprecated,
                None => false,
            };
            if !deprecated {
                self.add_member(at, capitals)?;
            }
        }
        Ok(())
    }

    fn add_declared(&mut self, body: &Body, at: At) -> Result<(), AllocError> {
        match body {
            Body::Table(_) => self.add_members(at, false)?,
            Body::Enum(_) => self.add_members(at, true)?,
            _ => {}
        }
        match body {
            Body::Table(_) => self.add(at, b".rt"),
            Body::Union(_) => Ok(()),
            _ => {
                self.add(at, b"")?;
                self.add(at, b"_at")?;
                self.add(at, b"_behind")
            }
        }
    }

    // The error that two names are one.
    fn refusal(&self, one: usize, other: usize) -> Result<PrintError, AllocError> {
        let mut name = Vec::from_slice(self.context.alloc, name_at(&self.owners, one))?;
        name.extend_from_slice(b" and ")?;
        name.extend_from_slice(name_at(&self.owners, other))?;
        Ok(PrintError::Unsupported { what: ALIKE, name })
    }
}

/// Refuses a schema two of whose calls or types would have one name in C.
pub(crate) fn refuse_alike(context: &Context<'_>) -> Result<(), PrintError> {
    let mut taken = Taken {
        context,
        names: Vec::new(context.alloc),
        owners: Vec::new(context.alloc),
    };
    taken.add_own()?;
    for (index, one) in context.declared.iter().enumerate() {
        taken.add_declared(&one.body, At::declaration(index))?;
    }
    let order = places_by_name(context.alloc, &taken.names)?;
    let mut before = taken.names.len();
    for place in &order {
        let name = name_at(&taken.names, *place);
        if !name.is_empty() && name_at(&taken.names, before) == name {
            return Err(taken.refusal(before, *place)?);
        }
        before = *place;
    }
    Ok(())
}
