// SPDX-License-Identifier: MIT
//! What the tests share.
use std::alloc::Global;
use std::io::{self, ErrorKind};
use std::process::Abort;

/// A vector of these bytes.
pub fn bytes(rt: &impl Abort, alloc: Global, source: &[u8]) -> Vec<u8> {
    let mut copy = Vec::new(alloc);
    if copy.extend_from_slice(source).is_err() {
        copy.extend_from_slice(source)
            .expect(rt, "memory for bytes");
    }
    copy
}

/// A text in memory of its own.
pub fn owned(rt: &impl Abort, alloc: Global, text: &str) -> String {
    match String::from_str(alloc, text) {
        Ok(text) => text,
        Err(_) => String::from_str(alloc, text).expect(rt, "memory for a text"),
    }
}

/// The kind of a cause, if there is one.
pub fn kind_of(cause: Option<io::Error>) -> Option<ErrorKind> {
    match cause {
        Some(cause) => Some(cause.kind()),
        None => None,
    }
}
