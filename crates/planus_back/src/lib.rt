//! The lowest layer of a flatbuffers writer that works from the back. Start at [`BackVec`], a byte
//! vector that grows at its front, and [`Promises`], the alignment constraints.
#![tactic(auto)]

pub mod backvec;
#[doc(hidden)]
pub mod block;
pub mod bucket;
mod byte;
pub mod cache;
pub mod cache_keys;
#[doc(hidden)]
pub mod cells;
pub mod fill;
mod hash;
mod identity_hasher;
pub mod laws;
pub mod promises;

pub use backvec::BackVec;
pub use bucket::Bucket;
pub use byte::Byte;
pub use cache::{Cache, find_key};
pub use cache_keys::{ByteVec, GetCacheKey, VTable};
pub use fill::{Fill, Overwrite, Zeroed};
pub use promises::{Promises, TooLarge};
