//! The names that code has for what a schema declares.

ghost use Rattle.std.specs.Prelude.{◌≡◌, length, map, true, IfOk};
ghost use Rattle.planus_schema.specs.Spelling as spec;
ghost use Rattle.std.specs.List.{list_any};
ghost use Rattle.planus_schema.specs.Distinct as distinct_spec;
ghost use Rattle.planus_codegen.specs.Known as known_spec;
ghost use Rattle.planus_schema.specs.Names as names_spec;

use crate::context::{count_in, member_in};
use crate::known::{is_known_module, is_known_type};
use crate::print_error::PrintError;
use planus_schema::{
    Body, Declared, add, allowed, are_apart, are_apart_from, are_names, are_scopes, capital,
    capitals, has_name as is_in, is_among, is_held, is_reserved, last_word, snake, value_spelled,
};
use std::alloc::{AllocError, Global};

/// The names of a schema's types, modules and members in code.
#[derive(Drop)]
pub struct Names {
    pub types: Vec<Vec<u8>>,
    pub modules: Vec<Vec<u8>>,
    pub members: Vec<Vec<Vec<u8>>>,
    /// Of each type, and then of each namespace, the path in the schema with its name in code:
    /// `game.data.Item`.
    pub places: Vec<Vec<u8>>,
    /// The namespaces in the schema, each after the one around it.
    pub namespaces: Vec<Vec<u8>>,
}

// In small letters after the namespace.
fn spelled(alloc: Global, name: &[u8]) -> Result<Vec<u8>, AllocError> {
    let word = last_word(name);
    let start = name.len().saturating_sub(word.len());
    let mut out = Vec::from_slice(alloc, name.get(..start).unwrap_or(name))?;
    out.extend_from_slice(&snake(alloc, word)?)?;
    Ok(out)
}

/// Returns the namespace around a full name; it is empty where there is none.
pub(crate) fn namespace_around(name: &[u8]) -> &[u8] {
    let behind = last_word(name).len().saturating_add(1);
    name.get(..name.len().saturating_sub(behind))
        .unwrap_or(name)
}

// The last word of a full name, as a type.
fn type_word(alloc: Global, name: &[u8]) -> Result<Vec<u8>, AllocError>
    ensures { IfOk result (λ v. v.items ≡ known_spec.type_word name.now) }
{
    let mut word = capital(alloc, last_word(name))?;
    if is_known_type(&word) || is_held(&word) {
        word.push(b'_')?;
    }
    Ok(word)
}

fn type_names(alloc: Global, declared: &[Declared]) -> Result<Vec<Vec<u8>>, AllocError>
    ensures { IfOk result (λ v. spec.names_in v ≡ known_spec.type_names declared.now) }
{
    let mut names = Vec::new(alloc);
    let mut rest = declared;
    'declared: while let Some((one, after)) = rest.split_first() {
        let word = type_word(alloc, &one.name)?;
        add(&mut names, word)?;
        rest = after;
    }
    Ok(names)
}

// The names of types after their namespaces, apart in each of these.
fn place_names(alloc: Global, declared: &[Declared]) -> Result<Vec<Vec<u8>>, AllocError> {
    let mut names = Vec::new(alloc);
    for one in declared {
        let word = last_word(&one.name);
        let start = one.name.len().saturating_sub(word.len());
        let mut name = Vec::from_slice(alloc, one.name.get(..start).unwrap_or(&one.name))?;
        name.extend_from_slice(&type_word(alloc, word)?)?;
        add(&mut names, name)?;
    }
    Ok(names)
}

fn is_around(namespace: &[u8], name: &[u8]) -> bool
    ensures { result ≡ known_spec.is_around namespace.now name.now }
{
    name.starts_with(namespace) && matches!(name.get(namespace.len()), Some(b'.'))
}

fn is_outermost(declared: &[Declared], name: &[u8]) -> bool
    ensures { result ≡ list_any (λ d. known_spec.is_around name.now d.name.items) declared.now }
{
    declared.iter().any(|one| is_around(name, &one.name))
}

fn is_type(types: &[Vec<u8>], name: &[u8]) -> bool
    ensures { result ≡ distinct_spec.is_in (distinct_spec.items_of types.now) name.now }
{
    is_in(types, name)
}

fn is_held_module(types: &[Vec<u8>], declared: &[Declared], name: &[u8]) -> bool
    ensures { result ≡ known_spec.is_held_module (distinct_spec.items_of types.now) declared.now
        name.now }
{
    is_type(types, name) || is_known_module(name) || is_outermost(declared, name)
}

fn allowed_module(
    types: &[Vec<u8>],
    declared: &[Declared],
    mut name: Vec<u8>,
) -> Result<Vec<u8>, AllocError>
    ensures { IfOk result (λ v. v.items
        ≡ known_spec.allowed_module (distinct_spec.items_of types.now) declared.now name.items) }
{
    if is_held_module(types, declared, &name) {
        name.push(b'_')?;
    }
    allowed(name)
}

fn module_word(
    alloc: Global,
    types: &[Vec<u8>],
    declared: &[Declared],
    name: &[u8],
) -> Result<Vec<u8>, AllocError>
    ensures { IfOk result (λ v. v.items
        ≡ known_spec.module_word (distinct_spec.items_of types.now) declared.now name.now) }
{
    let word = snake(alloc, name)?;
    allowed_module(types, declared, word)
}

fn module_names(
    alloc: Global,
    declared: &[Declared],
    types: &[Vec<u8>],
) -> Result<Vec<Vec<u8>>, AllocError>
    ensures { IfOk result (λ v. spec.names_in v ≡ known_spec.modules_of
        (distinct_spec.items_of types.now) declared.now) }
{
    let mut names = Vec::new(alloc);
    let mut rest = types;
    'types: while let Some((first, after)) = rest.split_first() {
        let word = module_word(alloc, types, declared, first)?;
        add(&mut names, word)?;
        rest = after;
    }
    Ok(names)
}

fn member_spelled(alloc: Global, body: &Body, name: &[u8]) -> Result<Vec<u8>, AllocError>
    ensures { IfOk result (λ v. v.items ≡ spec.member_spelled body.now name.now) }
{
    match body {
        Body::Table(_) | Body::Struct(_) => snake(alloc, name),
        Body::Enum(one) if one.flags => capitals(alloc, name),
        Body::Enum(_) => value_spelled(alloc, name),
        Body::Union(_) => Vec::from_slice(alloc, name),
    }
}

fn member_word(alloc: Global, body: &Body, name: &[u8]) -> Result<Vec<u8>, AllocError>
    ensures { IfOk result (λ v. v.items ≡ spec.member_word body.now name.now) }
{
    let name = member_spelled(alloc, body, last_word(name))?;
    allowed(name)
}

fn members_of(alloc: Global, body: &Body) -> Result<Vec<Vec<u8>>, AllocError>
    ensures { IfOk result (λ v. spec.names_in v ≡ spec.member_names body.now) }
{
    let mut names = Vec::new(alloc);
    'members: for place in 0..count_in(body) {
        if let Some((name, _)) = member_in(body, place) {
            let word = member_word(alloc, body, name)?;
            add(&mut names, word)?;
        }
    }
    Ok(names)
}

fn all_members(alloc: Global, declared: &[Declared]) -> Result<Vec<Vec<Vec<u8>>>, AllocError>
    ensures { IfOk result (λ v. map spec.names_in v.items ≡ spec.all_member_names declared.now) }
{
    let mut out = Vec::new(alloc);
    let mut rest = declared;
    'declared: while let Some((one, after)) = rest.split_first() {
        let names = members_of(alloc, &one.body)?;
        out.push(names)?;
        rest = after;
    }
    Ok(out)
}

pub(crate) fn name_at(names: &[Vec<u8>], index: usize) -> &[u8] {
    match names.get(index) {
        Some(name) => name.as_slice(),
        None => &[],
    }
}

/// The places of types and namespaces.
#[derive(Drop)]
struct Places {
    names: Vec<Vec<u8>>,
    namespaces: Vec<Vec<u8>>,
}

impl Places {
    fn of(alloc: Global, declared: &[Declared], modules: &[Vec<u8>]) -> Result<Places, AllocError> {
        let mut places = Places {
            names: place_names(alloc, declared)?,
            namespaces: Vec::new(alloc),
        };
        for one in declared {
            places.add_around(alloc, modules, &one.name)?;
        }
        Ok(places)
    }

    // Adds the namespaces around a name.
    fn add_around(
        &mut self,
        alloc: Global,
        modules: &[Vec<u8>],
        name: &[u8],
    ) -> Result<(), AllocError> {
        for (at, byte) in name.iter().enumerate() {
            let namespace = name.get(..at).unwrap_or(name);
            if *byte == b'.' && !is_in(&self.namespaces, namespace) {
                self.add(alloc, modules, namespace)?;
            }
        }
        Ok(())
    }

    // Adds a namespace, its module with `_` after its name until it differs.
    fn add(
        &mut self,
        alloc: Global,
        modules: &[Vec<u8>],
        namespace: &[u8],
    ) -> Result<(), AllocError> {
        let mut place = spelled(alloc, namespace)?;
        if is_reserved(last_word(&place)) || is_known_module(&place) {
            place.push(b'_')?;
        }
        for _ in 0..self.names.len().saturating_add(modules.len()) {
            if !is_among(&self.names, &place) && !is_among(modules, &place) {
                break;
            }
            place.push(b'_')?;
        }
        self.names.push(place)?;
        self.namespaces.push(Vec::from_slice(alloc, namespace)?)?;
        Ok(())
    }
}

fn names_of(alloc: Global, declared: &[Declared]) -> Result<Names, AllocError>
    ensures types { IfOk result (λ n. spec.names_in n.types ≡ known_spec.type_names declared.now) }
    ensures modules { IfOk result (λ n. spec.names_in n.modules ≡ known_spec.module_names
        declared.now) }
    ensures members { IfOk result (λ n. map spec.names_in n.members.items
        ≡ spec.all_member_names declared.now) }
    ensures counts { IfOk result (λ n. map (λ m. length m.items) n.members.items
        ≡ map (λ d. length (spec.said_in d.body)) declared.now) }
{
    let types = type_names(alloc, declared)?;
    let modules = module_names(alloc, declared, &types)?;
    let members = all_members(alloc, declared)?;
    let places = Places::of(alloc, declared, &modules)?;
    Ok(Names {
        types,
        modules,
        members,
        places: places.names,
        namespaces: places.namespaces,
    })
}

impl Names {
    /// Returns the names of what is declared.
    ///
    /// [`PrintError::Unsupported`] where one is no identifier or two of a scope are alike, which no
    /// schema comes to.
    pub fn of(alloc: Global, declared: &[Declared]) -> Result<Names, PrintError>
        ensures counts { IfOk result (λ n. length n.types.items ≡ length declared.now) }
        ensures counts_of_modules { IfOk result (λ n. length n.modules.items
            ≡ length declared.now) }
        ensures counts_of_members { IfOk result (λ n. length n.members.items
            ≡ length declared.now) }
        ensures types { IfOk result (λ n. names_spec.are_names n.types.items ≡ true) }
        ensures modules { IfOk result (λ n. names_spec.are_names n.modules.items ≡ true) }
        ensures apart { IfOk result (λ n. names_spec.are_apart_from n.types.items n.modules.items
            ≡ true) }
        ensures counts_of_each { IfOk result (λ n. map (λ m. length m.items) n.members.items
            ≡ map (λ d. length (spec.said_in d.body)) declared.now) }
        ensures types_named { IfOk result (λ n. spec.names_in n.types ≡ known_spec.type_names
            declared.now) }
        ensures modules_named { IfOk result (λ n. spec.names_in n.modules
            ≡ known_spec.module_names declared.now) }
        ensures members_named { IfOk result (λ n. map spec.names_in n.members.items
            ≡ spec.all_member_names declared.now) }
        ensures members { IfOk result (λ n. names_spec.are_scopes n.members.items ≡ true) }
        ensures places { IfOk result (λ n. names_spec.are_apart n.places.items ≡ true) }
    {
        let names = names_of(alloc, declared)?;
        let whole = names.types.len() == declared.len() && names.modules.len() == declared.len();
        let whole = whole && names.members.len() == declared.len();
        let apart = are_names(&names.types) && are_names(&names.modules);
        let apart = apart && are_apart_from(&names.types, &names.modules);
        let apart = apart && are_apart(&names.places);
        if whole && apart && are_scopes(&names.members) {
            return Ok(names);
        }
        Err(PrintError::Unsupported {
            what: "a name that no code can have",
            name: Vec::new(alloc),
        })
    }

    /// Returns the name of a declaration's type.
    pub(crate) fn type_name(&self, index: usize) -> &[u8] {
        name_at(&self.types, index)
    }

    /// Returns the name of a declaration's type in its namespace.
    pub(crate) fn type_in_namespace(&self, index: usize) -> &[u8] {
        last_word(name_at(&self.places, index))
    }

    /// The indices of namespaces follow those of declarations.
    pub(crate) fn module(&self, index: usize) -> &[u8] {
        match self.modules.get(index) {
            Some(name) => name.as_slice(),
            None => last_word(name_at(&self.places, index)),
        }
    }

    /// Returns the name of a namespace in the schema.
    pub(crate) fn namespace(&self, index: usize) -> &[u8] {
        match index.checked_sub(self.modules.len()) {
            Some(place) => name_at(&self.namespaces, place),
            None => &[],
        }
    }

    pub(crate) fn count(&self, index: usize) -> usize {
        match self.members.get(index) {
            Some(names) => names.len(),
            None => 0,
        }
    }

    pub(crate) fn member(&self, index: usize, place: usize) -> &[u8] {
        match self.members.get(index) {
            Some(names) => name_at(names, place),
            None => &[],
        }
    }
}
