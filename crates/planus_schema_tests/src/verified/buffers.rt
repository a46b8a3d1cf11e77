//! Buffers with a size before them or a file identifier, verified by printed functions.

use crate::digits::bytes_of;
use crate::printed::FLATC_ANNA;
use harbour::{verify_as_root, verify_buffer, verify_size_prefixed_buffer};
use planus::errors::ErrorKind;
use planus_views::{BufferFault, Limits};
use std::alloc::{AllocError, Global};

/// Where the identifier begins in a buffer.
const IDENTIFIER: usize = 4;

/// Returns the buffer twice, each after its size.
fn stream_of(alloc: Global, buffer: &[u8]) -> Result<Vec<u8>, AllocError> {
    let size = u32::try_from(buffer.len()).unwrap_or(0);
    let mut stream = Vec::new(alloc);
    for _ in 0..2 {
        stream.extend_from_slice(&size.to_le_bytes())?;
        stream.extend_from_slice(buffer)?;
    }
    Ok(stream)
}

/// Returns how many buffers of a stream are verified, and the first fault.
fn verified_in(stream: &[u8]) -> (usize, Option<BufferFault>) {
    let mut rest = stream;
    for count in 0..stream.len() {
        if rest.is_empty() {
            return (count, None);
        }
        match verify_size_prefixed_buffer(rest, Limits::default()) {
            Ok((_, behind)) => rest = behind,
            Err(fault) => return (count, Some(fault)),
        }
    }
    (0, None)
}

fn reads_stream(alloc: Global, buffer: &[u8]) -> bool {
    let Ok(stream) = stream_of(alloc, buffer) else {
        return false;
    };
    let cut = stream.len().saturating_sub(1);
    let no_length = Some(BufferFault::Size(ErrorKind::InvalidLength));
    verified_in(&stream) == (2, None) && verified_in(&stream[..cut]) == (1, no_length)
}

fn tests_identifier(bytes: &mut Vec<u8>) -> bool {
    let before = verify_buffer(bytes, Limits::default()).is_ok();
    if let Some(byte) = bytes.get_mut(IDENTIFIER) {
        *byte = b'?';
    }
    let fault = verify_buffer(bytes, Limits::default()).err();
    before
        && fault == Some(BufferFault::Identifier)
        && verify_as_root(bytes, Limits::default()).is_ok()
}

#[test]
fn streams_are_verified(rt: HostRuntime) {
    let alloc = rt.alloc();
    assert!(rt; matches!(bytes_of(alloc, FLATC_ANNA), Some(bytes) if reads_stream(alloc, &bytes)));
}

#[test]
fn identifiers_are_tested(rt: HostRuntime) {
    let tested = match bytes_of(rt.alloc(), FLATC_ANNA) {
        Some(mut bytes) => tests_identifier(&mut bytes),
        None => false,
    };
    assert!(rt; tested);
}
