//! Code of a schema.
#![tactic(auto)]

mod equipment;
mod monster;
mod weapon;

pub use equipment::{Equipment, EquipmentRef};
pub use monster::{Monster, MonsterFields, MonsterRef};
pub use planus::Create;
pub use weapon::{Weapon, WeaponFields, WeaponRef};

mod root;

pub use root::{
    read_as_root, read_size_prefixed_as_root, verify_as_root, verify_size_prefixed_as_root,
    where_fault_is, where_is,
};

mod verified;

pub use verified::equipment::EquipmentView;
pub use verified::monster::MonsterView;
pub use verified::weapon::WeaponView;
