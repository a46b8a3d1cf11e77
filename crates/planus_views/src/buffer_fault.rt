//! Faults of buffers that have a size before them or a file identifier.

use planus::errors::ErrorKind;
use planus_verify::Fault;

/// Why a buffer isn't verified.
#[derive(Clone, Copy, Debug, PartialEq, Eq)]
pub enum BufferFault {
    /// The size before the buffer can't be read, or fewer bytes follow, with this error.
    Size(ErrorKind),
    /// The file identifier isn't there.
    Identifier,
    /// The root, or what it leads to, has this fault. Places count from the buffer's first byte,
    /// after its size.
    Content(Fault),
}
