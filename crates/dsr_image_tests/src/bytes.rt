// Bytes in hexadecimal.
use anyhow::{Result, bail};
use std::alloc::Global;

/// The bytes that digits give.
pub fn bytes_of(alloc: Global, digits: &str) -> Result<Vec<u8>> {
    match hex::decode(alloc, digits) {
        Ok(bytes) => Ok(bytes),
        Err(_) => bail!("no bytes: {digits}"),
    }
}
