//! Numbers that are taken.

ghost use Rattle.std.specs.Prelude.{◌≡◌, ◌++◌, ◌∷◌, [], ◌==◌, ◌||◌, ℕ, List, true, IfOk, OnOk, not};
ghost use Rattle.std.specs.List.{list_any};
ghost use Rattle.planus_schema.specs.declared.number.Number.{Number as NumberV};
ghost use Rattle.planus_resolve.specs.Enums.{same_number};
ghost use Rattle.planus_resolve.specs.inner.Numbers.{has_magnitude, AreNumbers};

use planus_schema::Number;
use std::alloc::{AllocError, Global};
use std::collections::BTreeMap;

/// The numbers below zero, and the others, each by its distance from zero.
#[derive(Drop)]
pub(crate) struct Taken {
    below: BTreeMap<u64, usize>,
    others: BTreeMap<u64, usize>,
}

/// Adds a number to the keys of a map; returns whether it was new.
fn take_magnitude(map: &mut BTreeMap<u64, usize>, magnitude: u64) -> Result<bool, AllocError>
    ensures new { IfOk result (λ new. new ≡ not (has_magnitude map.old magnitude)) }
    ensures taken { OnOk result ((n : ℕ) → has_magnitude map.new n
        ≡ (has_magnitude map.old n || magnitude == n)) }
{
    match map.get(&magnitude) {
        Some(_) => Ok(false),
        None => {
            map.insert(magnitude, 0)?;
            Ok(true)
        }
    }
}

impl Taken {
    pub(crate) fn new(alloc: Global) -> Taken
        ensures { AreNumbers result [] }
    {
        Taken {
            below: BTreeMap::new(alloc),
            others: BTreeMap::new(alloc),
        }
    }

    /// Adds a number; returns whether it was new.
    pub(crate) fn take(&mut self, number: Number) -> Result<bool, AllocError>
        ensures new { (list : List NumberV) → AreNumbers self.old list
            → IfOk result (λ new. new ≡ not (list_any (λ m. same_number m number) list)) }
        ensures taken { (list : List NumberV) → AreNumbers self.old list
            → IfOk result (λ new. new ≡ true → AreNumbers self.new (list ++ number ∷ [])) }
    {
        if number.negative {
            take_magnitude(&mut self.below, number.magnitude)
        } else {
            take_magnitude(&mut self.others, number.magnitude)
        }
    }
}
