/// The bucket of a key in a cache. Valid for the cache that returned it, until that changes.
#[derive(Clone, Copy)]
pub struct Bucket {
    pub(crate) number: u64,
}
