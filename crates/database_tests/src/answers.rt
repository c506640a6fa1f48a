//! What a call answered, beside what it is to answer.

/// Whether the bytes that were answered, or the fault in place of them, are these.
pub fn are_bytes<E: PartialEq + Drop>(found: Result<Vec<u8>, E>, want: Result<&[u8], E>) -> bool {
    match found {
        Ok(bytes) => Ok(bytes.as_slice()) == want,
        Err(fault) => Err(fault) == want,
    }
}
