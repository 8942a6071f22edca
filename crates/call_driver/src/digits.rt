//! Bytes in hexadecimal.

use anyhow::Result;
use std::alloc::Global;

/// The bytes that the digits represent.
pub fn bytes_of(alloc: Global, digits: &str) -> Result<Vec<u8>> {
    Ok(hex::decode(alloc, digits)?)
}

/// The digits that represent bytes.
pub fn hexadecimal(alloc: Global, bytes: &[u8]) -> Result<String> {
    Ok(hex::encode(alloc, bytes)?)
}
