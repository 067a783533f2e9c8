// SPDX-License-Identifier: MIT
//! Images, and what their ranges are.

pub use imago_access::access::FormatAccess;
pub use imago_access::mapping::Mapping;
pub use imago_access::reader::Reader;
pub use imago_access::text::ChainText;
