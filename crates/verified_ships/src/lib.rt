//! Verified views of a cut of the schema `harbour`, and of a table with the kinds that it lacks.
#![tactic(auto)]

mod company;
mod gauge;
mod kind;
mod log;
mod mark;
mod owner;
mod person;
mod port;
mod schema;
mod ship;
#[cfg(test)]
mod tests;

pub use company::{Company, CompanyView};
pub use gauge::Gauge;
pub use kind::Kind;
pub use log::{Log, LogView};
pub use mark::Mark;
pub use owner::{Owner, OwnerView};
pub use person::{Person, PersonView};
pub use port::{Port, PortView};
pub use schema::{FIELDS, TABLES, VARIANTS};
pub use ship::{Ship, ShipView};
