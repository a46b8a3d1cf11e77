//! Code of a schema.
#![tactic(auto)]

mod berth;
mod boat;
mod crane;
mod dive;
mod fee;
mod gear;
mod load;
mod plate;
mod quay;
mod slip;

pub use berth::{Berth, BerthRef};
pub use boat::{Boat, BoatFields, BoatRef};
pub use crane::Crane;
pub use dive::Dive;
pub use fee::{Fee, FeeFields, FeeRef};
pub use gear::Gear;
pub use load::Load;
pub use planus::Create;
pub use plate::Plate;
pub use quay::{Quay, QuayFields, QuayRef};
pub use slip::{Slip, SlipFields, SlipRef};

mod root;

pub use root::{
    read_as_root, read_size_prefixed_as_root, verify_as_root, verify_size_prefixed_as_root,
    where_fault_is, where_is,
};

mod verified;

pub use verified::berth::BerthView;
pub use verified::boat::BoatView;
pub use verified::fee::FeeView;
pub use verified::quay::QuayView;
pub use verified::slip::SlipView;
