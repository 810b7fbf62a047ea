//! Scripts that are made of many equal pieces.

use std::alloc::{AllocError, Global};

/// `before`, so many times `piece`, and `after`.
pub fn repeated(
    alloc: Global,
    before: &[u8],
    piece: &[u8],
    times: usize,
    after: &[u8],
) -> Result<Vec<u8>, AllocError> {
    let mut bytes = Vec::from_slice(alloc, before)?;
    for _ in 0..times {
        bytes.extend_from_slice(piece)?;
    }
    bytes.extend_from_slice(after)?;
    Ok(bytes)
}
