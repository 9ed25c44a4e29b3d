//! Bytes as texts of hexadecimal digits.

use std::alloc::{AllocError, Global};
use std::test::Fail;

/// The bytes of a text of hexadecimal digits, with blanks anywhere.
pub fn bytes_of(alloc: Global, text: &str) -> Result<Vec<u8>, Fail> {
    let digits = text.replace(alloc, ' ', "")?;
    let bytes = hex::decode(alloc, digits.as_bytes());
    drop(digits);
    match bytes {
        Ok(bytes) => Ok(bytes),
        Err(_) => Err(Fail::from("no hexadecimal digits")),
    }
}

/// Bytes as a text of hexadecimal digits.
pub fn digits_of(alloc: Global, bytes: &[u8]) -> Result<String, AllocError> {
    hex::encode(alloc, bytes)
}
