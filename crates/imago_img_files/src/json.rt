// SPDX-License-Identifier: MIT
//! Texts in JSON.

use serde_json::Value;
use std::alloc::{AllocError, Global};

/// A text as JSON has it, in quotes.
pub fn quoted(alloc: Global, text: &str) -> Result<String, AllocError> {
    Value::String(String::from_str(alloc, text)?).to_string(alloc)
}
