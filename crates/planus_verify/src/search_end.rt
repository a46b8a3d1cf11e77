//! Ends of a search.

use crate::fault::FieldPlace;

/// Why a search ends before all is searched.
#[derive(Drop)]
pub(crate) enum SearchEnd {
    /// The place is found, by these fields, the place first.
    Found(Vec<FieldPlace>),
    /// More tables are reached than the limit.
    TooMany,
    /// An allocation failed.
    NoMemory,
}
