//! Code of a schema.
#![tactic(auto)]

mod cause;
mod company;
mod entry;
mod fix;
mod gauge;
mod kind;
mod level;
mod manifest;
mod needs;
mod origin;
mod owner;
mod person;
mod port;
mod pos;
mod ship;
mod signal;

pub use cause::{Cause, CauseRef};
pub use company::{Company, CompanyFields, CompanyRef};
pub use entry::{Entry, EntryFields, EntryRef};
pub use fix::Fix;
pub use gauge::Gauge;
pub use kind::Kind;
pub use level::Level;
pub use manifest::{Manifest, ManifestFields, ManifestRef};
pub use needs::Needs;
pub use origin::{Origin, OriginFields, OriginRef};
pub use owner::{Owner, OwnerRef};
pub use person::{Person, PersonFields, PersonRef};
pub use planus::Create;
pub use port::{Port, PortFields, PortRef};
pub use pos::Pos;
pub use ship::{Ship, ShipFields, ShipRef};
pub use signal::Signal;

mod root;

pub use root::{
    finish_root, finish_root_size_prefixed, has_identifier, read_as_root,
    read_size_prefixed_as_root, verify_as_root, verify_buffer, verify_size_prefixed_as_root,
    verify_size_prefixed_buffer, where_fault_is, where_is,
};

mod verified;

pub use verified::cause::CauseView;
pub use verified::company::CompanyView;
pub use verified::entry::EntryView;
pub use verified::manifest::ManifestView;
pub use verified::origin::OriginView;
pub use verified::owner::OwnerView;
pub use verified::person::PersonView;
pub use verified::port::PortView;
pub use verified::ship::ShipView;

/// The file identifier, which [`planus::Builder::finish`] writes and [`planus::has_identifier`]
/// looks for.
pub const FILE_IDENTIFIER: [u8; 4] = [83, 72, 73, 80];
