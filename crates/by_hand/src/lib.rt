//! Tables, a struct, an enum, flags and a union by hand. Start with [`Site`].
#![tactic(auto)]

mod boat;
mod features;
mod fleet;
mod kind;
mod owner;
mod pos;
mod site;
mod site_read_back;
mod stream;

pub use boat::{Boat, BoatRef, Callsign};
pub use features::Features;
pub use fleet::{Fleet, Named};
pub use kind::Kind;
pub use owner::{Owner, OwnerRef};
pub use pos::Pos;
pub use site::{Site, SiteFields, SiteRef, USUAL_DEPTH, USUAL_HEAT, point};
pub use site_read_back::home_read_back;
pub use stream::{Records, append, read_all};
