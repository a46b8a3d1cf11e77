//! A cut of the schema `harbour`, with owned records:
//!
//! ```text
//! table Person { name: string (required); age: ubyte = 18; }
//! table Ship { name: string (required); hull: ushort = 100; kind: Kind = Bike; home: Pos;
//!     heat: float = 1.5; depth: short = -5; open: bool = true; maybe: int = null; note: string;
//!     captain: Person; mate: Ship; }
//! table Port { name: string (required); flagship: Ship (required); }
//! ```
//!
//! Begin with `person.rt`; a [`Ship`] leads back to itself.
#![tactic(auto)]

mod kind;
mod person;
mod port;
mod pos;
mod ship;
#[cfg(test)]
mod tests;

pub use kind::Kind;
pub use person::{Person, PersonFields, PersonRef};
pub use planus::Create;
pub use port::{Port, PortFields, PortRef};
pub use pos::Pos;
pub use ship::{Ship, ShipFields, ShipRef};
