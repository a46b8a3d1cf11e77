//! Calls for C over the tables of `harbour`, which `harbour.h` declares.
#![tactic(auto)]

mod company;
mod entry;
mod manifest;
mod origin;
mod person;
mod port;
mod root;
mod ship;
mod values;
