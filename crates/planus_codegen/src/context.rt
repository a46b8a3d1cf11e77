//! What is known of a schema while its code is printed.

ghost use Rattle.std.specs.Prelude.{◌≡◌, length, IfOk, MatchOption, slice_get, None, Some};
ghost use Rattle.planus_schema.specs.Spelling.{said_in};
ghost use Rattle.planus_codegen.specs.Printed.{AreFit, IsNamingOf};

use crate::at::At;
use crate::leads::left_before;
use crate::names::Names;
use crate::print_error::PrintError;
use planus_schema::{Base, Body, Declared, Scalar, Schema, TableField};
use planus_tie::Naming;
pub(crate) use planus_tie::scalar_name;
use std::alloc::{AllocError, Global};

/// A schema, with names and facts of its types.
#[derive(Drop)]
pub(crate) struct Context<'a> {
    pub(crate) alloc: Global,
    pub(crate) crate_name: &'a str,
    /// Whether verified reading is printed.
    pub(crate) verified: bool,
    pub(crate) declared: &'a [Declared],
    /// Its bytes.
    pub(crate) identifier: Option<&'a [u8]>,
    pub(crate) root: Option<usize>,
    pub(crate) names: Names,
    /// Of each declaration.
    facts: Vec<Facts>,
    /// How many tables are before each, or unions before each union.
    ranks: Vec<usize>,
    /// How many tables and unions a walk leaves before each.
    pub(crate) left: Vec<usize>,
}

/// What is known of a declaration's values.
#[derive(Clone, Copy)]
struct Facts {
    /// A read can't fail once the bytes are there.
    total: bool,
    /// Equal ones are the same.
    exact: bool,
    /// How many numbers of enums are tested where one is read, those of an array once.
    clauses: usize,
}

const NO_FACTS: Facts = Facts {
    total: false,
    exact: false,
    clauses: 0,
};

fn facts_of_base(facts: &[Facts], base: Base) -> Facts {
    match base {
        Base::Scalar(scalar) => Facts {
            total: true,
            exact: !matches!(scalar, Scalar::Float | Scalar::Double),
            clauses: 0,
        },
        Base::Struct(index) | Base::Enum(index) => { facts.get(index).copied().unwrap_or(NO_FACTS) }
        _ => NO_FACTS,
    }
}

fn facts_of_body(facts: &[Facts], body: &Body) -> Facts {
    match body {
        Body::Enum(one) => Facts {
            total: one.flags,
            exact: true,
            clauses: if one.flags { 0 } else { 1 },
        },
        Body::Struct(one) => {
            let mut all = Facts {
                total: true,
                exact: true,
                clauses: 0,
            };
            for field in &one.fields {
                let of_field = facts_of_base(facts, field.base);
                all.total &= of_field.total;
                all.exact &= of_field.exact && field.count.is_none();
                all.clauses = all.clauses.saturating_add(of_field.clauses);
            }
            all
        }
        _ => NO_FACTS,
    }
}

// A struct holds only structs and enums that are declared before it.
fn facts_of(alloc: Global, declared: &[Declared]) -> Result<Vec<Facts>, AllocError> {
    let mut facts = Vec::new(alloc);
    for one in declared {
        let of_one = facts_of_body(&facts, &one.body);
        facts.push(of_one)?;
    }
    Ok(facts)
}

fn ranks_of(alloc: Global, declared: &[Declared]) -> Result<Vec<usize>, AllocError> {
    let mut ranks = Vec::new(alloc);
    let mut tables = 0usize;
    let mut unions = 0usize;
    for one in declared {
        if matches!(one.body, Body::Union(_)) {
            ranks.push(unions)?;
            unions = unions.saturating_add(1);
        } else {
            ranks.push(tables)?;
            tables = tables.saturating_add(matches!(one.body, Body::Table(_)) as usize);
        }
    }
    Ok(ranks)
}

/// How many members a declaration has.
pub(crate) fn count_in(body: &Body) -> usize
    ensures { result ≡ length (said_in body.now) }
{
    match body {
        Body::Table(one) => one.fields.len(),
        Body::Struct(one) => one.fields.len(),
        Body::Enum(one) => one.values.len(),
        Body::Union(one) => one.members.len(),
    }
}

/// The name of a member in the schema, and its documentation.
pub(crate) fn member_in(body: &Body, place: usize) -> Option<(&Vec<u8>, &Vec<Vec<u8>>)>
    ensures { MatchOption result (slice_get (said_in body.now) place ≡ None)
        (λ m. slice_get (said_in body.now) place ≡ Some m.0.now.items) }
{
    match body {
        Body::Table(one) => {
            let field = one.fields.get(place)?;
            Some((&field.name, &field.docs))
        }
        Body::Struct(one) => {
            let field = one.fields.get(place)?;
            Some((&field.name, &field.docs))
        }
        Body::Enum(one) => {
            let value = one.values.get(place)?;
            Some((&value.name, &value.docs))
        }
        Body::Union(one) => {
            let member = one.members.get(place)?;
            Some((&member.name, &member.docs))
        }
    }
}

impl<'a> Context<'a> {
    pub(crate) fn new(
        alloc: Global,
        schema: &'a Schema,
        crate_name: &'a str,
        verified: bool,
    ) -> Result<Context<'a>, PrintError>
        ensures declared { IfOk result (λ c. c.declared.now ≡ schema.now.declarations.items) }
        ensures names { IfOk result (λ c. AreFit schema.now.declarations.items c.names) }
    {
        let declared = schema.declarations.as_slice();
        Ok(Context {
            alloc,
            crate_name,
            verified,
            declared,
            identifier: match &schema.statements.identifier {
                Some(identifier) => Some(identifier.as_slice()),
                None => None,
            },
            root: schema.statements.root,
            names: Names::of(alloc, declared)?,
            facts: facts_of(alloc, declared)?,
            ranks: ranks_of(alloc, declared)?,
            left: left_before(alloc, declared)?,
        })
    }

    pub(crate) fn naming(&self) -> Naming<'_>
        ensures { IsNamingOf self.now.declared.now self.now.names result }
    {
        Naming {
            declared: self.declared,
            types: &self.names.types,
            modules: &self.names.modules,
            members: &self.names.members,
        }
    }

    pub(crate) fn body(&self, index: usize) -> Option<&'a Body> {
        match self.declared.get(index) {
            Some(one) => Some(&one.body),
            None => None,
        }
    }

    fn member(&self, at: At) -> Option<(&'a Vec<u8>, &'a Vec<Vec<u8>>)> {
        member_in(self.body(at.index)?, at.place)
    }

    pub(crate) fn said(&self, at: At) -> &'a [u8] {
        match self.member(at) {
            Some((name, _)) => name.as_slice(),
            None => &[],
        }
    }

    pub(crate) fn docs(&self, at: At) -> &'a [Vec<u8>] {
        match self.member(at) {
            Some((_, docs)) => docs.as_slice(),
            None => &[],
        }
    }

    pub(crate) fn field(&self, at: At) -> Option<&'a TableField> {
        match self.body(at.index) {
            Some(Body::Table(one)) => one.fields.get(at.place),
            _ => None,
        }
    }

    pub(crate) fn is_flags(&self, index: usize) -> bool {
        match self.body(index) {
            Some(Body::Enum(one)) => one.flags,
            _ => false,
        }
    }

    /// Whether a declaration is an enum whose numbers may be negative.
    pub(crate) fn is_signed_enum(&self, index: usize) -> bool {
        match self.body(index) {
            Some(Body::Enum(one)) => is_signed(one.scalar),
            _ => false,
        }
    }

    pub(crate) fn enum_scalar(&self, index: usize) -> &'static str {
        match self.body(index) {
            Some(Body::Enum(one)) => scalar_name(one.scalar),
            _ => "",
        }
    }

    pub(crate) fn is_total_declaration(&self, index: usize) -> bool {
        match self.facts.get(index) {
            Some(facts) => facts.total,
            None => false,
        }
    }

    /// Whether equal values of a declaration are the same.
    pub(crate) fn is_exact_declaration(&self, index: usize) -> bool {
        match self.facts.get(index) {
            Some(facts) => facts.exact,
            None => false,
        }
    }

    /// The index of a table among all tables, or of a union among all unions.
    pub(crate) fn rank(&self, index: usize) -> usize {
        self.ranks.get(index).copied().unwrap_or(0)
    }

    /// Whether there is a table whose verified view is printed.
    pub(crate) fn has_views(&self) -> bool {
        let mut tables = self.declared.iter();
        self.verified && tables.any(|one| matches!(one.body, Body::Table(_)))
    }

    /// How many numbers of enums are tested where a value is read, those of an array once.
    pub(crate) fn clauses_of(&self, base: Base) -> usize {
        facts_of_base(&self.facts, base).clauses
    }

    /// Whether the read of a value can't fail once its bytes are there.
    pub(crate) fn is_total(&self, base: Base) -> bool {
        facts_of_base(&self.facts, base).total
    }
}

pub(crate) fn is_signed(scalar: Scalar) -> bool {
    matches!(
        scalar,
        Scalar::Byte | Scalar::Short | Scalar::Int | Scalar::Long
    )
}
