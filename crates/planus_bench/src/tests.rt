mod agreement;
mod alignments;
mod caches;
mod damaged;
mod found;
mod greatest_builder;
mod iterators;
mod kinds;
mod limits;
mod long_runs;
mod many;
mod no_memory;
mod padding;
mod parts;
mod placings;
mod plain_padding;
mod plain_reader;
mod plain_run;
mod read_back;
mod refusals;
mod refused_calls;
mod refused_copies;
mod runs;
mod settings;
mod surface;
mod tables;
mod unions;
mod without_memory;

use planus::{BuildError, Builder, Caches};
use std::alloc::Global;

// In a box, since the type of an owned value is written out at each step of a proof, and that of a
// builder is long.
fn boxed(alloc: Global, builder: Builder) -> Result<Box<Builder>, BuildError> {
    match Box::new(alloc, builder) {
        Ok(builder) => Ok(builder),
        Err(_) => Err(BuildError::OutOfMemory),
    }
}

fn new_builder(alloc: Global) -> Result<Box<Builder>, BuildError> {
    match Builder::with_caches(alloc, 0, Caches::all()) {
        Ok(builder) => boxed(alloc, builder),
        Err(error) => Err(error),
    }
}
