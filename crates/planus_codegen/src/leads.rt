//! Which fields of tables lead back to tables that lead to them.

use crate::verified_unions::passes_by_itself;
use planus_schema::{Base, Body, Declared, TableField, Union};
use std::alloc::{AllocError, Global};

/// A table or a union, and the place of its next member.
#[derive(Clone, Copy)]
struct Stop {
    index: usize,
    place: usize,
}

/// A walk over the tables and unions of a schema, each with all to which it leads before it is left.
#[derive(Drop)]
struct Walk<'a> {
    declared: &'a [Declared],
    entered: Vec<bool>,
    /// How many were left before each.
    left: Vec<usize>,
    count: usize,
    /// Those that were entered and not left, the last one at the end.
    path: Vec<Stop>,
}

fn members(declared: &[Declared], index: usize) -> usize {
    match declared.get(index) {
        Some(one) => match &one.body {
            Body::Table(table) => table.fields.len(),
            Body::Union(union) => union.members.len(),
            _ => 0,
        },
        None => 0,
    }
}

/// The table or union that a field leads to.
fn target_of(field: &TableField) -> Option<usize> {
    match (field.nested, field.kind.base) {
        (Some(index), _) | (None, Base::Table(index) | Base::Union(index)) => Some(index),
        _ => None,
    }
}

fn table_in(base: Base) -> Option<usize> {
    match base {
        Base::Table(index) => Some(index),
        _ => None,
    }
}

fn target_at(declared: &[Declared], stop: Stop) -> Option<usize> {
    match &declared.get(stop.index)?.body {
        Body::Table(table) => target_of(table.fields.get(stop.place)?),
        Body::Union(union) => table_in(union.members.get(stop.place)?.base),
        _ => None,
    }
}

impl<'a> Walk<'a> {
    fn new(alloc: Global, declared: &'a [Declared]) -> Result<Walk<'a>, AllocError> {
        let mut entered = Vec::new(alloc);
        let mut left = Vec::new(alloc);
        for _ in declared {
            entered.push(false)?;
            left.push(declared.len())?;
        }
        Ok(Walk {
            declared,
            entered,
            left,
            count: 0,
            path: Vec::new(alloc),
        })
    }

    fn enter(&mut self, index: usize) -> Result<(), AllocError> {
        if let Some(entered) = self.entered.get_mut(index) {
            if !*entered {
                *entered = true;
                self.path.push(Stop { index, place: 0 })?;
            }
        }
        Ok(())
    }

    fn leave(&mut self, index: usize) {
        if let Some(left) = self.left.get_mut(index) {
            *left = self.count;
        }
        self.count = self.count.saturating_add(1);
    }

    /// Goes on at the last one that was entered; returns whether there is one.
    fn step(&mut self) -> Result<bool, AllocError> {
        let Some(stop) = self.path.pop() else {
            return Ok(false);
        };
        if stop.place >= members(self.declared, stop.index) {
            self.leave(stop.index);
            return Ok(true);
        }
        self.path.push(Stop {
            index: stop.index,
            place: stop.place.saturating_add(1),
        })?;
        if let Some(target) = target_at(self.declared, stop) {
            self.enter(target)?;
        }
        Ok(true)
    }

    /// Goes on until the path is empty: after as many steps as there are members and declarations.
    fn finish(&mut self, steps: usize) -> Result<(), AllocError> {
        for _ in 0..steps {
            if !self.step()? {
                break;
            }
        }
        Ok(())
    }
}

/// Returns, for each declaration, how many tables and unions a walk over the schema leaves before
/// it. So a table is left after those to which it leads, but for those that lead back to it.
pub(crate) fn left_before(alloc: Global, declared: &[Declared]) -> Result<Vec<usize>, AllocError> {
    let mut steps = 0usize;
    for index in 0..declared.len() {
        let all = members(declared, index).saturating_add(1);
        steps = steps.saturating_add(all);
    }
    let mut walk = Walk::new(alloc, declared)?;
    for index in 0..declared.len() {
        walk.enter(index)?;
        walk.finish(steps)?;
    }
    Ok(walk.left)
}

fn are_left_before(left: &[usize], union: &Union, table: usize) -> bool {
    union.members.iter().all(|member| match table_in(member.base) {
        Some(index) => left.get(index) < left.get(table),
        None => true,
    })
}

/// Whether all tables to which a field leads are left before its own, by these numbers, and a union
/// has a function of its own.
pub(crate) fn leads_on(
    left: &[usize],
    declared: &[Declared],
    table: usize,
    field: &TableField,
) -> bool {
    let Some(index) = target_of(field) else {
        return true;
    };
    match declared.get(index) {
        Some(one) => match &one.body {
            Body::Union(union) => passes_by_itself(union) && are_left_before(left, union, table),
            _ => left.get(index) < left.get(table),
        },
        None => false,
    }
}

/// Whether `Debug` of a table may read a field on: whether all tables whose views it shows are left
/// before its own, by these numbers. A buffer is shown as its bytes.
pub(crate) fn shows_on(
    left: &[usize],
    declared: &[Declared],
    table: usize,
    field: &TableField,
) -> bool {
    let (Base::Table(index) | Base::Union(index)) = field.kind.base else {
        return true;
    };
    match declared.get(index) {
        Some(one) => match &one.body {
            Body::Union(union) => are_left_before(left, union, table),
            _ => left.get(index) < left.get(table),
        },
        None => false,
    }
}
